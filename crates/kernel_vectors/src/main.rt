// A test program: the kernels of 4,000 covariances, each on a line by the smallest free number and on a line by the rule of S-2, as
// `reference` prints them for the same numbers. Both make the numbers by the same recurrence; what the lines must be stands in the
// file stdout, which the independent program wrote.
#![tactic(auto)]

use kernel::{Choice, Covariance, Kernel};
use std::io;

const NO_KERNEL: Kernel = Kernel {
    weights: [0; kernel::WEIGHTS],
    sum: 0,
};

// The next number of the recurrence x -> 48271 x mod 2^31 - 1.
fn next(x: u64) -> u64 {
    (x % 2147483647) * 48271 % 2147483647
}

// A number from -spread to spread.
fn around(x: u64, spread: u64) -> i32 {
    let size = (spread % 400000) + 1;
    (x % (2 * size + 1)) as i32 - size as i32
}

// The line of one covariance and step count by a choice: the number of the answer, and the kernel or, for a refusal, zeros.
fn print_kernel(
    rt: &impl Print,
    choice: Choice,
    covariance: Covariance,
    steps: u32,
) -> io::Result<()> {
    let (number, kernel) = match kernel::kernel_by(choice, covariance, steps) {
        Ok(kernel) => (0, kernel),
        Err(code) => (u32::from(code), NO_KERNEL),
    };
    let Kernel { weights, sum } = kernel;
    print!(rt; "{number}")?;
    for weight in weights {
        print!(rt; " {weight}")?;
    }
    println!(rt; " {sum}")
}

fn main(rt: HostRuntime) -> io::Result<()> {
    let mut x = 1u64;
    for _ in 0..4000 {
        let a = next(x);
        let b = next(a);
        let c = next(b);
        x = next(c);
        let steps = (x % 67) as u32;
        let units = 4096 * (x % 67);
        let covariance = Covariance {
            xx: around(a, units),
            xy: around(b, units / 2),
            yy: around(c, units),
        };
        for choice in [Choice::Smallest, Choice::Binomial] {
            print_kernel(&rt, choice, covariance, steps)?;
        }
    }
    Ok(())
}
