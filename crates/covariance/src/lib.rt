// Shapes and their covariance: a Round or an Oval, in floats, to whole numbers of 1/4096 square pixel, or refusal 3 or 4; and
// the kernel of a shape and a step count. A float is multiplied by a power of two, which is exact, before it is cut to a
// whole number: so no rounding stands between the float value and the nearest whole number.
#![tactic(auto)]

ghost use Rattle.std.specs.Prelude.{◌≡◌, ◌+◌, ◌≤◌, true, pos, neg_ℤ};
ghost use Rattle.covariance.specs.Floats.{◌⊕◌, ◌⊗◌, in_range};
ghost use Rattle.covariance.specs.Units.{nearest_units};
ghost use Rattle.covariance.specs.Cuts.{Within, UpTo, whole_below, whole_above, most_squares, most_units, most_halves};
ghost use Rattle.covariance.specs.Shapes.{variance_in_range, cosine_in_range, square_in_range, direction_in_range, variances_fine, direction_fine, oval_xy};
ghost use Rattle.kernel.specs.Choice.{default_choice};
ghost use Rattle.covariance.specs.Answer.{entries_of, covariance_answer, shape_kernel_answer};

use kernel::{Choice, Covariance, Kernel};
use limits::ErrorCode;

// REFERENCE's direction: a cosine c and a sine s.
#[derive(Clone, Copy)]
pub struct Direction {
    pub cosine: f64,
    pub sine: f64,
}

// REFERENCE's shape: Matrix (xx, xy, yy in 1/4096 square pixel), Round (variance in square pixels) or Oval (long and short
// variance, direction).
#[derive(Clone, Copy)]
pub enum Shape {
    Matrix(i32, i32, i32),
    Round(f64),
    Oval(f64, f64, Direction),
}

// In a square pixel.
const HALF_UNITS: f64 = 8192.0;

// A cast with its bound, here and below: `i32::try_from` would have a refusal that cannot occur.
fn nonnegative(size: u64) -> i32
    requires { size ≤ most_units }
    ensures { result ≡ pos size }
{
    size as i32
}

fn negated(size: u64) -> i32
    requires { size ≤ most_units }
    ensures { result ≡ neg_ℤ (pos size) }
{
    0 - (size as i32)
}

fn floor(x: f64) -> u64
    requires { UpTo most_halves x }
    ensures { (result ≡ whole_below x) × (result ≤ most_halves) }
{
    std::num::truncating_f64_to_u64(x)
}

fn ceiling(x: f64) -> u64
    requires { UpTo most_halves x }
    ensures { (result ≡ whole_above x) × (result ≤ most_halves + 1) }
{
    let whole = floor(x);
    if (whole as f64) < x { whole + 1 } else { whole }
}

// Square pixels to the nearest whole number of 1/4096 of one, halves upward, by way of half such units.
fn nearest_units(squares: f64) -> i32
    requires { Within most_squares squares }
    ensures { result ≡ nearest_units squares }
{
    let halves = squares * HALF_UNITS;
    if halves < 0.0 {
        negated(ceiling(-halves) / 2)
    } else {
        nonnegative((floor(halves) + 1) / 2)
    }
}

// Both ends are inside, and a NaN is in no range: each comparison with one is false.
#[tactic(auto, unfolding(crate::specs::Floats::in_range))]
fn in_range(low: f64, high: f64, x: f64) -> bool
    ensures { result ≡ in_range low high x }
{
    low <= x && x <= high
}

fn variance_in_range(variance: f64) -> bool
    ensures { result ≡ variance_in_range variance }
{
    in_range(0.0, 64.0, variance)
}

fn cosine_in_range(x: f64) -> bool
    ensures { result ≡ cosine_in_range x }
{
    in_range(-1.0, 1.0, x)
}

fn square_in_range(x: f64) -> bool
    ensures { result ≡ square_in_range x }
{
    in_range(1023.0 / 1024.0, 1025.0 / 1024.0, x)
}

// The test of refusal 4.
#[tactic(auto, unfolding(crate::specs::Shapes::direction_in_range))]
pub fn direction_in_range(direction: Direction) -> bool
    ensures { result ≡ direction_in_range direction }
{
    let c = direction.cosine;
    let s = direction.sine;
    cosine_in_range(c) && cosine_in_range(s) && square_in_range(c * c + s * s)
}

#[tactic(auto, unfolding(crate::specs::Shapes::variances_fine))]
fn variances_fine(shape: Shape) -> bool
    ensures { result ≡ variances_fine shape }
{
    match shape {
        Shape::Matrix(..) => true,
        Shape::Round(variance) => variance_in_range(variance),
        Shape::Oval(long, short, _) => variance_in_range(long) && variance_in_range(short),
    }
}

#[tactic(auto, unfolding(crate::specs::Shapes::direction_fine))]
fn direction_fine(shape: Shape) -> bool
    ensures { result ≡ direction_fine shape }
{
    match shape {
        Shape::Matrix(..) | Shape::Round(_) => true,
        Shape::Oval(_, _, direction) => direction_in_range(direction),
    }
}

// A variance along an axis, of which these are the shares: c and s give xx, s and c give yy.
fn oval_variance(long: f64, short: f64, a: f64, b: f64) -> f64
    ensures { result ≡ long ⊗ (a ⊗ a) ⊕ short ⊗ (b ⊗ b) }
{
    long * (a * a) + short * (b * b)
}

fn oval_xy(long: f64, short: f64, direction: Direction) -> f64
    ensures { result ≡ oval_xy long short direction }
{
    let c = direction.cosine;
    let s = direction.sine;
    (long - short) * (c * s)
}

fn oval_entries(long: f64, short: f64, direction: Direction) -> Covariance
    requires { (variances_fine (Shape.Oval long short direction) ≡ true) × (direction_fine (Shape.Oval long short direction) ≡ true) }
    ensures { result ≡ entries_of (Shape.Oval long short direction) }
{
    let c = direction.cosine;
    let s = direction.sine;
    Covariance {
        xx: nearest_units(oval_variance(long, short, c, s)),
        xy: nearest_units(oval_xy(long, short, direction)),
        yy: nearest_units(oval_variance(long, short, s, c)),
    }
}

#[tactic(auto, unfolding(crate::specs::Shapes::covariance_xx, crate::specs::Shapes::covariance_xy, crate::specs::Shapes::covariance_yy))]
fn entries_of(shape: Shape) -> Covariance
    requires { (variances_fine shape ≡ true) × (direction_fine shape ≡ true) }
    ensures { result ≡ entries_of shape }
{
    match shape {
        Shape::Matrix(xx, xy, yy) => Covariance { xx, xy, yy },
        Shape::Round(variance) => {
            let units = nearest_units(variance);
            Covariance {
                xx: units,
                xy: 0,
                yy: units,
            }
        }
        Shape::Oval(long, short, direction) => oval_entries(long, short, direction),
    }
}

// The covariance of a shape, or refusal 3 or 4.
pub fn covariance_of(shape: Shape) -> Result<Covariance, ErrorCode>
    ensures { result ≡ covariance_answer shape }
{
    if !variances_fine(shape) {
        return Err(ErrorCode::VarianceOutOfRange);
    }
    if !direction_fine(shape) {
        return Err(ErrorCode::NotADirection);
    }
    Ok(entries_of(shape))
}

// The kernel of a shape and a step count by a choice, or refusal 3, 4, 5 or 11, the first that applies in that order.
pub fn kernel_of_shape_by(choice: Choice, shape: Shape, steps: u32) -> Result<Kernel, ErrorCode>
    ensures { result ≡ shape_kernel_answer choice shape steps }
{
    let covariance = covariance_of(shape)?;
    kernel::kernel_by(choice, covariance, steps)
}

// The same where no choice is named (REFERENCE, S2.8): a public call, and no twin.
pub fn kernel_of_shape(shape: Shape, steps: u32) -> Result<Kernel, ErrorCode>
    ensures { result ≡ shape_kernel_answer default_choice shape steps }
{
    kernel_of_shape_by(Choice::Binomial, shape, steps)
}
