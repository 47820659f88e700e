// The greatest common divisor, by Euclid's loop: nothing here calls itself. Two numbers change places until one is 0, and no index
// counts; the library has no such method.
ghost use Rattle.std.specs.Prelude.{◌≡◌, [], ◌∷◌, ◌<◌};
ghost use Rattle.job_printer.specs.Divisors.{GreatestDivisor, reduced};

use kernel::Kernel;

fn divisor(a: u64, b: u64) -> u64
    ensures { GreatestDivisor (a ∷ b ∷ []) result }
{
    let mut found = a;
    let mut rest = b;
    while 0 < rest {
        (found, rest) = (rest, found % rest);
    }
    found
}

// The divisor of a kernel's sum and its nine weights.
fn kernel_divisor(kernel: Kernel) -> u64
    ensures { GreatestDivisor (kernel.sum ∷ kernel.weights) result }
{
    let mut found = kernel.sum;
    for weight in kernel.weights {
        found = divisor(weight, found);
    }
    found
}

// The sum and the weights, all divided by their greatest common divisor.
pub fn reduced(kernel: Kernel) -> Kernel
    requires { 0 < kernel.sum }
    ensures { result.sum ∷ result.weights ≡ reduced (kernel.sum ∷ kernel.weights) }
{
    let divisor = kernel_divisor(kernel);
    let mut weights = kernel.weights;
    for weight in weights.iter_mut() {
        *weight /= divisor;
    }
    Kernel {
        weights,
        sum: kernel.sum / divisor,
    }
}
