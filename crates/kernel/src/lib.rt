// The kernel of a covariance and a step count: nine weights by the molecule of Lindeberg's paper (equations 22 to 27), with the
// free number of a choice, or refusal 5 or 11. The signs are taken off first; the rest is in unsigned numbers, sizes of 32 bits
// whose sums are formed in 64, where none can wrap.
#![tactic(auto)]

ghost use Rattle.std.specs.Prelude.{◌≡◌, ◌∷◌, [], ℕ, ◌+◌, ◌-◌, ◌*◌, ◌/◌, ◌≤◌, max, min, true, ◌&&◌, ℤ, pos, nat_abs};
ghost use Rattle.limits.specs.Limits.{steps_in_range};
ghost use Rattle.kernel.specs.Molecule.{units_of, kernel_with};
ghost use Rattle.kernel.specs.Choice.{free_number_by, choice_of};
ghost use Rattle.kernel.specs.Existence.{free_fits};
ghost use Rattle.kernel.specs.Answer.{kernel_answer, free_answer, kernel_at_answer};

use limits::ErrorCode;

// The units of REFERENCE's covariance: 1/4096 square pixel.
pub const UNITS_PER_SQUARE_PIXEL: u64 = 4096;

pub const WEIGHTS: usize = 9;

// How the free number is chosen (REFERENCE, "The choice of f"). Binomial, the rule that holds where a caller names none, asks for
// the paper's binomial kernel's ratio: its centre weighs twice as much as a side (equations 81 and 85). Smallest is the one from
// before it (K9).
#[derive(Clone, Copy, PartialEq, Eq)]
pub enum Choice {
    Binomial,
    Smallest,
}

// The choice that a number names: 1 is smallest, and every other number the binomial one, so that none is refused.
impl From<u32> for Choice {
    ghost from_gives = { λ number choice. choice ≡ choice_of number };

    fn from(number: u32) -> Choice {
        if number == 1 {
            Choice::Smallest
        } else {
            Choice::Binomial
        }
    }
}

// The entries of a covariance matrix, in those units.
#[derive(Clone, Copy, PartialEq, Eq)]
pub struct Covariance {
    pub xx: i32,
    pub xy: i32,
    pub yy: i32,
}

// Nine weights by row and then by column, and their sum.
#[derive(Clone, Copy, PartialEq, Eq)]
pub struct Kernel {
    pub weights: [u64; WEIGHTS],
    pub sum: u64,
}

// M of a step count.
fn units(steps: u32) -> u64
    ensures { result ≡ units_of steps }
{
    UNITS_PER_SQUARE_PIXEL * u64::from(steps)
}

// The larger of |xy| and xx + yy - M: the smallest free number that leaves no weight negative.
fn smallest_free_number(xx: u32, xy: u32, yy: u32, m: u64) -> u64
    ensures { result ≡ max xy (xx + yy - m) }
{
    let sum = u64::from(xx) + u64::from(yy);
    u64::from(xy).max(sum.saturating_sub(m))
}

// At least half of xx + yy + max(xx, yy) - M, upward: from there on the centre weighs at least twice as much as either side. At
// most the smaller variance, since a side would be negative beyond it.
fn binomial_free_number(smallest: u64, xx: u32, yy: u32, m: u64) -> u64
    ensures { result ≡ min (max smallest ((xx + yy + max xx yy - m + 1) / 2)) (min xx yy) }
{
    let sum = u64::from(xx) + u64::from(yy) + u64::from(xx.max(yy));
    let half = (sum.saturating_sub(m) + 1) / 2;
    smallest.max(half).min(u64::from(xx.min(yy)))
}

// The free number of a choice, from the smallest one.
fn free_number_by(choice: Choice, smallest: u64, xx: u32, yy: u32, m: u64) -> u64
    ensures { (z : ℤ) → smallest ≡ max (nat_abs z) (xx + yy - m) → pos result ≡ free_number_by choice (pos xx) z (pos yy) m }
{
    match choice {
        Choice::Binomial => binomial_free_number(smallest, xx, yy, m),
        Choice::Smallest => smallest,
    }
}

// A kernel that is symmetric about its centre, from its five weights.
fn symmetric(diagonal: u64, down: u64, across: u64, along: u64, centre: u64, sum: u64) -> Kernel
    ensures { result ≡ record { weights = diagonal ∷ down ∷ across ∷ along ∷ centre ∷ along ∷ across ∷ down ∷ diagonal ∷ []; sum = sum } }
{
    Kernel {
        weights: [
            diagonal, down, across, along, centre, along, across, down, diagonal,
        ],
        sum,
    }
}

// The free number of a covariance and a step count, by a choice, or refusal 5 or 11: what a record holds of the kernel that the
// choice gives.
#[tactic(auto, using(crate::proofs::Answers::negative_x, crate::proofs::Answers::negative_y, crate::proofs::Answers::too_large))]
pub fn free_by(choice: Choice, covariance: Covariance, steps: u32) -> Result<u32, ErrorCode>
    ensures { result ≡ free_answer choice covariance.xx covariance.xy covariance.yy steps }
{
    if !limits::steps_in_range(steps) {
        return Err(ErrorCode::StepsOutOfRange);
    }
    if covariance.xx < 0 || covariance.yy < 0 {
        return Err(ErrorCode::NoKernel);
    }
    let xx = covariance.xx.unsigned_abs();
    let yy = covariance.yy.unsigned_abs();
    let m = units(steps);
    let smallest = smallest_free_number(xx, covariance.xy.unsigned_abs(), yy, m);
    let high = xx.min(yy);
    if u64::from(high) < smallest {
        return Err(ErrorCode::NoKernel);
    }
    Ok(free_number_by(choice, smallest, xx, yy, m) as u32)
}

// Whether the steps are in range and a free number leaves no weight negative: lies between the two bounds. A tick asks it of each job
// held, so no kernel is made and nothing divided.
#[tactic(auto, using(crate::proofs::Bounds::fits_negative_x, crate::proofs::Bounds::fits_negative_y, crate::proofs::Bounds::fits_test))]
pub fn free_fits(covariance: Covariance, free: u32, steps: u32) -> bool
    ensures { result ≡ (steps_in_range steps && free_fits covariance.xx covariance.xy covariance.yy free (units_of steps)) }
{
    if !limits::steps_in_range(steps) || covariance.xx < 0 || covariance.yy < 0 {
        return false;
    }
    let xx = covariance.xx.unsigned_abs();
    let yy = covariance.yy.unsigned_abs();
    let low = smallest_free_number(xx, covariance.xy.unsigned_abs(), yy, units(steps));
    low <= u64::from(free) && free <= xx.min(yy)
}

// The kernel with any free number between the bounds: no weight is negative.
fn kernel_of(covariance: Covariance, free: u32, steps: u32) -> Kernel
    requires { (steps_in_range steps ≡ true) × (free_fits covariance.xx covariance.xy covariance.yy free (units_of steps) ≡ true) }
    ensures { result ≡ kernel_with covariance.xx covariance.xy covariance.yy (pos free) steps }
{
    let xx = u64::from(covariance.xx.unsigned_abs());
    let xy = u64::from(covariance.xy.unsigned_abs());
    let yy = u64::from(covariance.yy.unsigned_abs());
    let f = u64::from(free);
    let m = units(steps);
    let along = 2 * (xx - f);
    let down = 2 * (yy - f);
    let centre = 4 * (m + f - (xx + yy));
    if covariance.xy < 0 {
        return symmetric(f - xy, down, f + xy, along, centre, 4 * m);
    }
    symmetric(f + xy, down, f - xy, along, centre, 4 * m)
}

// The kernel with any free number between its bounds, as the service's record holds it; or refusal 5, or 11 where it lies outside.
pub fn kernel_at(covariance: Covariance, free: u32, steps: u32) -> Result<Kernel, ErrorCode>
    ensures { result ≡ kernel_at_answer covariance.xx covariance.xy covariance.yy free steps }
{
    if free_fits(covariance, free, steps) {
        return Ok(kernel_of(covariance, free, steps));
    }
    Err(if limits::steps_in_range(steps) {
        ErrorCode::NoKernel
    } else {
        ErrorCode::StepsOutOfRange
    })
}

// The kernel of a covariance and a step count, by a choice, or refusal 5 or 11: the kernel with the free number of the choice.
pub fn kernel_by(choice: Choice, covariance: Covariance, steps: u32) -> Result<Kernel, ErrorCode>
    ensures { result ≡ kernel_answer choice covariance.xx covariance.xy covariance.yy steps }
{
    let free = free_by(choice, covariance, steps)?;
    Ok(kernel_of(covariance, free, steps))
}
