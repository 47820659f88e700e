// Differences of a lent picture, written to a lent result of as many entries: the five undivided ones in whole numbers, and the
// directional one in floats. One walk along the places, in row order, serves them all: it keeps the columns and rows around the
// place, so that no place is divided into column and row, and the ends of a picture cost a comparison each. A picture comes as its
// pixels, width and height, as the C interface has it.
#![tactic(auto)]

ghost use Rattle.std.specs.Prelude.{◌≡◌, ℕ, ◌+◌, ◌*◌, ◌^◌, ◌≤◌, ◌<◌, length, get_or, pos, ◌-ℤ◌};
ghost use Rattle.limits.specs.Limits.{largest_pixel, longest_side};
ghost use Rattle.limits.specs.Errors.{first_refusal, held_after};
ghost use Rattle.differences.specs.Stencils.{stencil_sum, stencil_of, differences_of};
ghost use Rattle.differences.specs.Directional.{directional, directional_of};
ghost use Rattle.differences.specs.Answers.{difference_checks, directional_checks};
ghost use Rattle.differences.specs.Places.{after_of, place_at, index_of, around, PlaceInside};

use covariance::Direction;
use limits::ErrorCode;

// REFERENCE's undivided differences: the first ones are twice the derivative, the second ones the second derivative, and the
// mixed one is four times the mixed derivative.
#[derive(Clone, Copy, PartialEq, Eq)]
pub enum Difference {
    FirstX,
    FirstY,
    SecondX,
    SecondY,
    Mixed,
}

// A place of a picture: its column and the columns next to it, and the indices at which its row and the rows next to it start.
// Where the picture ends, the nearest column or row stands for the one outside.
#[derive(Clone, Copy)]
struct Place {
    left: usize,
    column: usize,
    right: usize,
    above: usize,
    row: usize,
    below: usize,
}

// One step on, or where that is past the last, the same again.
fn after(at: usize, step: usize, end: usize) -> usize
    requires { at + step < 2 ^ 64 }
    ensures { result ≡ after_of at step end }
{
    let next = at + step;
    if next < end { next } else { at }
}

impl Place {
    fn first(width: usize, size: usize) -> Self
        requires { (1 ≤ width) × (width ≤ longest_side) }
        ensures { result ≡ place_at width size 0 }
    {
        Place {
            left: 0,
            column: 0,
            right: after(0, 1, width),
            above: 0,
            row: 0,
            below: after(0, width, size),
        }
    }

    // The place one index on.
    fn next(self, width: usize, size: usize) -> Self
        requires wide { (1 ≤ width) × (width ≤ longest_side) }
        requires inside { index_of self < longest_side * longest_side }
        requires here { self ≡ place_at width size (index_of self) }
        ensures { result ≡ place_at width size (index_of self + 1) }
    {
        if self.column < self.right {
            Place {
                left: self.column,
                column: self.right,
                right: after(self.right, 1, width),
                ..self
            }
        } else {
            let row = self.row + width;
            Place {
                left: 0,
                column: 0,
                right: after(0, 1, width),
                above: self.row,
                row,
                below: after(row, width, size),
            }
        }
    }
}

// The pixel at a column of the row that starts at the index `row`.
fn pixel(pixels: &[u16], row: usize, column: usize) -> u32
    requires { row + column < length pixels.now }
    ensures { (result ≡ get_or pixels.now (row + column) 0) × (result ≤ largest_pixel) }
{
    u32::from(pixels[row + column])
}

// The one place where a number gets a sign: sums of pixels stay unsigned up to here.
fn signed_difference(added: u32, taken: u32) -> i32
    requires { (added ≤ 2 * largest_pixel) × (taken ≤ 2 * largest_pixel) }
    ensures { result ≡ pos added -ℤ pos taken }
{
    added as i32 - taken as i32
}

#[tactic(auto, unfolding(crate::specs::Stencils::stencil_sum))]
fn difference_at(which: Difference, pixels: &[u16], place: Place) -> i32
    requires { PlaceInside (length pixels.now) place }
    ensures { result ≡ stencil_sum (stencil_of which) (around pixels.now place) }
{
    match which {
        Difference::FirstX => signed_difference(
            pixel(pixels, place.row, place.right),
            pixel(pixels, place.row, place.left),
        ),
        Difference::FirstY => signed_difference(
            pixel(pixels, place.below, place.column),
            pixel(pixels, place.above, place.column),
        ),
        Difference::SecondX => signed_difference(
            pixel(pixels, place.row, place.right) + pixel(pixels, place.row, place.left),
            2 * pixel(pixels, place.row, place.column),
        ),
        Difference::SecondY => signed_difference(
            pixel(pixels, place.below, place.column) + pixel(pixels, place.above, place.column),
            2 * pixel(pixels, place.row, place.column),
        ),
        Difference::Mixed => signed_difference(
            pixel(pixels, place.below, place.right) + pixel(pixels, place.above, place.left),
            pixel(pixels, place.below, place.left) + pixel(pixels, place.above, place.right),
        ),
    }
}

fn directional_at(direction: Direction, pixels: &[u16], place: Place) -> f64
    requires { PlaceInside (length pixels.now) place }
    ensures { result ≡ directional direction (stencil_sum (stencil_of Difference.FirstX) (around pixels.now place)) (stencil_sum (stencil_of Difference.FirstY) (around pixels.now place)) }
{
    let dx = difference_at(Difference::FirstX, pixels, place) as f64;
    let dy = difference_at(Difference::FirstY, pixels, place) as f64;
    direction.cosine * dx + direction.sine * dy
}

// Fills a result with the entries of the places of a picture, in row order.
#[tactic(auto, using(crate::proofs::Places::index_here))]
fn fill_places<T: Copy, F: Fn(Place) -> T>(width: usize, res: &mut [T], entry_at: F)
    requires wide { (1 ≤ width) × (width ≤ longest_side) }
    requires small { length res.old ≤ longest_side * longest_side }
    requires callable { (at : ℕ) → at < length res.old → F.pre entry_at (place_at width (length res.old) at) }
    ensures { (at : ℕ) → at < length res.old → (none : T) → F.post entry_at (place_at width (length res.old) at) (get_or res.new at none) }
{
    let size = res.len();
    let mut place = Place::first(width, size);
    for entry in res.iter_mut() {
        *entry = entry_at(place);
        place = place.next(width, size);
    }
}

// Refusals 6 and 9, for a picture and a result of so many entries.
fn checked(picture: usize, res: usize, width: u32, height: u32) -> Result<(), ErrorCode>
    ensures { result ≡ first_refusal (difference_checks picture res width height) }
{
    if !limits::sides_in_range(width, height) {
        return Err(ErrorCode::SideOutOfRange);
    }
    if !limits::fills_picture(picture, width, height) {
        return Err(ErrorCode::WrongLength);
    }
    if !limits::fills_picture(res, width, height) {
        return Err(ErrorCode::WrongLength);
    }
    Ok(())
}

// One undivided difference at every place of a picture, or refusal 6 or 9.
pub fn undivided_difference(
    which: Difference,
    pixels: &[u16],
    width: u32,
    height: u32,
    res: &mut [i32],
) -> Result<(), ErrorCode>
    ensures answer { result ≡ first_refusal (difference_checks (length pixels.now) (length res.old) width height) }
    ensures entries { res.new ≡ held_after result (differences_of which width height pixels.now) res.old }
{
    checked(pixels.len(), res.len(), width, height)?;
    let difference = |place| difference_at(which, pixels, place);
    fill_places(width as usize, res, difference);
    Ok(())
}

// The directional difference at every place of a picture, or refusal 4, 6 or 9.
pub fn directional_difference(
    direction: Direction,
    pixels: &[u16],
    width: u32,
    height: u32,
    res: &mut [f64],
) -> Result<(), ErrorCode>
    ensures answer { result ≡ first_refusal (directional_checks direction (length pixels.now) (length res.old) width height) }
    ensures entries { res.new ≡ held_after result (directional_of direction width height pixels.now) res.old }
{
    if !covariance::direction_in_range(direction) {
        return Err(ErrorCode::NotADirection);
    }
    checked(pixels.len(), res.len(), width, height)?;
    let directional = |place| directional_at(direction, pixels, place);
    fill_places(width as usize, res, directional);
    Ok(())
}
