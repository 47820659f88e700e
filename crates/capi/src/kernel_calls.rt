// The kernel of a shape, exported. What each call writes and refuses is said in picture_calls. The choice of the free number is a
// number: 1 names smallest, and every other the binomial one.
ghost use Rattle.std.specs.Prelude.{◌≡◌};
ghost use Rattle.kernel.specs.Choice.{choice_of};
ghost use Rattle.picture_calls.specs.Pictures.{kernel_code, kernel_after};

use covariance::{Direction, Shape};

// Writes the sum and the nine weights of a kernel whose shape is a covariance matrix in 1/4096 square pixel.
#[unsafe(no_mangle)]
pub extern "C" fn vokhsaot_kernel_matrix_by(
    choice: u32,
    xx: i32,
    xy: i32,
    yy: i32,
    steps: u32,
    weights: &mut [u64],
) -> u32
    ensures value { result ≡ kernel_code (Shape.Matrix xx xy yy) steps weights.old }
    ensures weights_after { weights.new ≡ kernel_after (choice_of choice) (Shape.Matrix xx xy yy) steps weights.old }
{
    let outcome = picture_calls::write_kernel(choice, Shape::Matrix(xx, xy, yy), steps, weights);
    limits::outcome_number(outcome)
}

// Writes the sum and the nine weights of a kernel whose shape is round, of this variance in square pixels.
#[unsafe(no_mangle)]
pub extern "C" fn vokhsaot_kernel_round_by(
    choice: u32,
    variance: f64,
    steps: u32,
    weights: &mut [u64],
) -> u32
    ensures value { result ≡ kernel_code (Shape.Round variance) steps weights.old }
    ensures weights_after { weights.new ≡ kernel_after (choice_of choice) (Shape.Round variance) steps weights.old }
{
    let outcome = picture_calls::write_kernel(choice, Shape::Round(variance), steps, weights);
    limits::outcome_number(outcome)
}

// Writes the sum and the nine weights of a kernel whose shape is oval, by its variances along and across a direction.
#[unsafe(no_mangle)]
pub extern "C" fn vokhsaot_kernel_oval_by(
    choice: u32,
    long: f64,
    short: f64,
    cosine: f64,
    sine: f64,
    steps: u32,
    weights: &mut [u64],
) -> u32
    ensures value { result ≡ kernel_code (Shape.Oval long short (record { cosine = cosine; sine = sine })) steps weights.old }
    ensures weights_after { weights.new ≡ kernel_after (choice_of choice) (Shape.Oval long short (record { cosine = cosine; sine = sine })) steps weights.old }
{
    let oval = Shape::Oval(long, short, Direction { cosine, sine });
    let outcome = picture_calls::write_kernel(choice, oval, steps, weights);
    limits::outcome_number(outcome)
}
