// Shapes, kernels, runs, differences and pixels for callers that have numbers and slices alone. A refusal changes nothing: lent
// slices and numbers then keep their contents. A picture comes as its pixels, width and height, as C has it.
#![tactic(auto)]

ghost use Rattle.std.specs.Prelude.{◌≡◌, length};
ghost use Rattle.limits.specs.Errors.{outcome_number, value_or};
ghost use Rattle.image.specs.Reading.{reading_of, reading_number, reading_values};
ghost use Rattle.kernel.specs.Choice.{choice_of};
ghost use Rattle.smoothing.specs.Runs.{run_of};
ghost use Rattle.smoothing.specs.InPlace.{in_place_outcome, in_place_after};
ghost use Rattle.picture_calls.specs.Pictures.{kernel_count, kernel_words, covariance_code, covariance_after, kernel_code, kernel_after, shown_code, shown_picture_after, difference_code, difference_after, directional_code, directional_after};

use covariance::{Direction, Shape};
use differences::Difference;
use kernel::{Choice, Covariance, Kernel};
use limits::ErrorCode;

// The entries of a covariance, and the words of a kernel: its sum and its weights.
const ENTRIES: usize = 3;

const KERNEL_WORDS: usize = 1 + kernel::WEIGHTS;

// The numbers of a run's two pictures, as C reads them.
const FIRST: u32 = 0;

const SECOND: u32 = 1;

// The covariance of a shape, written as xx, xy, yy in 1/4096 square pixel. Refusals 3, 4, and 9 where there are not 3 entries.
#[tactic(auto, unfolding(crate::specs::Pictures::covariance_code, crate::specs::Pictures::covariance_after))]
pub fn write_covariance(shape: Shape, entries: &mut [i32]) -> Result<(), ErrorCode>
    ensures value { outcome_number result ≡ covariance_code shape entries.old }
    ensures entries_after { entries.new ≡ covariance_after shape entries.old }
{
    let Covariance { xx, xy, yy } = covariance::covariance_of(shape)?;
    if entries.len() != ENTRIES {
        return Err(ErrorCode::WrongLength);
    }
    entries.copy_from_slice(&[xx, xy, yy]);
    Ok(())
}

// The sum, and then the nine weights.
fn write_words(kernel: Kernel, words: &mut [u64])
    requires { length words.old ≡ kernel_count }
    ensures { words.new ≡ kernel_words kernel }
{
    words[0] = kernel.sum;
    words[1..].copy_from_slice(&kernel.weights);
}

// The kernel of a shape and a step count, by the choice that a number names. Refusals 3, 4, 5, then 9 where there are not 10
// words, then 11.
#[tactic(auto, unfolding(crate::specs::Pictures::kernel_code, crate::specs::Pictures::kernel_after))]
pub fn write_kernel(
    choice: u32,
    shape: Shape,
    steps: u32,
    words: &mut [u64],
) -> Result<(), ErrorCode>
    ensures value { outcome_number result ≡ kernel_code shape steps words.old }
    ensures words_after { words.new ≡ kernel_after (choice_of choice) shape steps words.old }
{
    let covariance = covariance::covariance_of(shape)?;
    if !limits::steps_in_range(steps) {
        return Err(ErrorCode::StepsOutOfRange);
    }
    if words.len() != KERNEL_WORDS {
        return Err(ErrorCode::WrongLength);
    }
    let kernel = kernel::kernel_by(Choice::from(choice), covariance, steps)?;
    write_words(kernel, words);
    Ok(())
}

// A run of so many steps between two pictures, by the choice that a number names. The last step is in the first one where their
// number is even, else in the second.
pub fn run(
    choice: u32,
    shape: Shape,
    steps: u32,
    width: u32,
    height: u32,
    first: &mut [u16],
    second: &mut [u16],
) -> Result<(), ErrorCode>
    ensures value { result ≡ (run_of (choice_of choice) shape steps width height first.old second.old).outcome }
    ensures first_after { first.new ≡ (run_of (choice_of choice) shape steps width height first.old second.old).first }
    ensures second_after { second.new ≡ (run_of (choice_of choice) shape steps width height first.old second.old).second }
{
    let by = Choice::from(choice);
    smoothing::run_by(by, shape, steps, width, height, first, second)
}

// A run of so many steps within one picture, by the choice that a number names: the picture then holds the last step.
pub fn run_in_place(
    choice: u32,
    shape: Shape,
    steps: u32,
    width: u32,
    height: u32,
    picture: &mut [u16],
) -> Result<(), ErrorCode>
    ensures value { result ≡ in_place_outcome shape steps width height picture.old }
    ensures picture_after { picture.new ≡ in_place_after (choice_of choice) shape steps width height picture.old }
{
    let chosen = Choice::from(choice);
    smoothing::run_in_place_by(chosen, shape, steps, width, height, picture)
}

// Which of its two pictures a run of so many steps ends in: writes 0 for the first, 1 for the second. Refusal 5.
#[tactic(auto, unfolding(crate::specs::Pictures::shown_code, crate::specs::Pictures::shown_picture_after))]
pub fn shown(steps: u32, picture: &mut u32) -> Result<(), ErrorCode>
    ensures value { outcome_number result ≡ shown_code steps }
    ensures picture_after { picture.new ≡ shown_picture_after steps picture.old }
{
    if limits::steps_in_range(steps) {
        *picture = if smoothing::ends_in_first(steps) {
            FIRST
        } else {
            SECOND
        };
        Ok(())
    } else {
        Err(ErrorCode::StepsOutOfRange)
    }
}

// An undivided difference at every place of a picture. Refusals 6 and 9.
#[tactic(auto, unfolding(crate::specs::Pictures::difference_code, crate::specs::Pictures::difference_after))]
pub fn difference(
    which: Difference,
    pixels: &[u16],
    width: u32,
    height: u32,
    res: &mut [i32],
) -> Result<(), ErrorCode>
    ensures value { outcome_number result ≡ difference_code width height pixels.now res.old }
    ensures res_after { res.new ≡ difference_after which width height pixels.now res.old }
{
    differences::undivided_difference(which, pixels, width, height, res)
}

// The cosine times the first difference in x and the sine times that in y, at every place. Refusals 4, 6 and 9.
#[tactic(auto, unfolding(crate::specs::Pictures::directional_code, crate::specs::Pictures::directional_after))]
pub fn directional(
    direction: Direction,
    pixels: &[u16],
    width: u32,
    height: u32,
    res: &mut [f64],
) -> Result<(), ErrorCode>
    ensures value { outcome_number result ≡ directional_code direction width height pixels.now res.old }
    ensures res_after { res.new ≡ directional_after direction width height pixels.now res.old }
{
    differences::directional_difference(direction, pixels, width, height, res)
}

// The pixel at a column and a row, the nearest one outside the picture. Refusals 6 and 9.
pub fn pixel_at(
    pixels: &[u16],
    width: u32,
    height: u32,
    column: i32,
    row: i32,
    pixel: &mut u16,
) -> Result<(), ErrorCode>
    ensures value { outcome_number result ≡ reading_number (reading_of width height pixels.now column row) }
    ensures pixel_after { pixel.new ≡ value_or (reading_values (reading_of width height pixels.now column row)) pixel.old }
{
    *pixel = view::read_pixel(pixels, width, height, column, row)?;
    Ok(())
}
