// The run: k smoothing steps between two lent pictures, there and back, and the part of the two that its reader is shown; and the
// same steps within one lent picture. The public calls take any numbers and any lengths: what does not fit is refused, and then no
// pixel has changed. Each stands once with a choice of the free number and once without. A picture comes as its pixels,
// width and height, as C has it.
#![tactic(auto)]

ghost use Rattle.std.specs.Prelude.{◌≡◌, ◌≤◌, length};
ghost use Rattle.limits.specs.Errors.{first_refusal, answer_with};
ghost use Rattle.averaging.specs.Steps.{step_of, steps_of};
ghost use Rattle.row_core.specs.Prepared.{StepKernel};
ghost use Rattle.stepping.specs.Step.{PicturePair};
ghost use Rattle.kernel.specs.Choice.{default_choice};
ghost use Rattle.covariance.specs.Shapes.{kernel_of_shape_by};
ghost use Rattle.smoothing.specs.Checks.{picture_checks};
ghost use Rattle.smoothing.specs.Runs.{run_checks, is_even, steps_in_first, steps_in_second, run_of};
ghost use Rattle.smoothing.specs.Shown.{shown_of};
ghost use Rattle.smoothing.specs.InPlace.{in_place_outcome, in_place_after};

use covariance::Shape;
use kernel::{Choice, Kernel};
use limits::ErrorCode;

// Two steps, from the first picture to the second and back.
fn there_and_back(
    first: &mut [u16],
    second: &mut [u16],
    width: usize,
    height: usize,
    kernel: Kernel,
)
    requires step_kernel { StepKernel kernel }
    requires picture_pair { PicturePair (length first.old) (length second.old) width height }
    ensures second_after { second.new ≡ step_of kernel width height first.old }
    ensures first_after { first.new ≡ step_of kernel width height second.new }
{
    stepping::step(first, second, width, height, kernel);
    stepping::step(second, first, width, height, kernel);
}

// The steps of a run in pairs, and the last one by itself where their number is odd.
fn run_steps(
    first: &mut [u16],
    second: &mut [u16],
    width: usize,
    height: usize,
    steps: u32,
    kernel: Kernel,
)
    requires step_kernel { StepKernel kernel }
    requires picture_pair { PicturePair (length first.old) (length second.old) width height }
    requires le_steps { 1 ≤ steps }
    ensures first_after { first.new ≡ steps_of kernel width height (steps_in_first steps) first.old }
    ensures second_after { second.new ≡ steps_of kernel width height (steps_in_second steps) first.old }
{
    for _ in 0..steps / 2 {
        there_and_back(first, second, width, height, kernel);
    }
    if steps % 2 == 1 {
        stepping::step(first, second, width, height, kernel);
    }
}

// Refusals 5, 6 and 9, the first that applies, of two lent pictures of so many pixels.
fn checked(
    steps: u32,
    width: u32,
    height: u32,
    first: usize,
    second: usize,
) -> Result<(), ErrorCode>
    ensures { result ≡ first_refusal (picture_checks steps width height first second) }
{
    if !limits::steps_in_range(steps) {
        return Err(ErrorCode::StepsOutOfRange);
    }
    if !limits::sides_in_range(width, height) {
        return Err(ErrorCode::SideOutOfRange);
    }
    if !limits::fills_picture(first, width, height) {
        return Err(ErrorCode::WrongLength);
    }
    if !limits::fills_picture(second, width, height) {
        return Err(ErrorCode::WrongLength);
    }
    Ok(())
}

// The kernel of a run with two pictures of so many pixels, or the first of refusals 3, 4, 5, 6, 9 and 11 that applies.
fn run_kernel(
    choice: Choice,
    shape: Shape,
    steps: u32,
    width: u32,
    height: u32,
    first: usize,
    second: usize,
) -> Result<Kernel, ErrorCode>
    ensures { result ≡ answer_with (first_refusal (run_checks shape steps width height first second)) (kernel_of_shape_by choice shape steps) }
{
    let covariance = covariance::covariance_of(shape)?;
    checked(steps, width, height, first, second)?;
    kernel::kernel_by(choice, covariance, steps)
}

// A run (docs/REFERENCE.md, R3 to R5): the first picture is smoothed in so many steps with the kernel of a shape, or refusal 3, 4,
// 5, 6, 9 or 11.
// The last step ends in the first picture where their number is even, else in the second; the other holds the step before it.
pub fn run_by(
    choice: Choice,
    shape: Shape,
    steps: u32,
    width: u32,
    height: u32,
    first: &mut [u16],
    second: &mut [u16],
) -> Result<(), ErrorCode>
    ensures outcome { result ≡ (run_of choice shape steps width height first.old second.old).outcome }
    ensures first { first.new ≡ (run_of choice shape steps width height first.old second.old).first }
    ensures second { second.new ≡ (run_of choice shape steps width height first.old second.old).second }
{
    let in_first = first.len();
    let in_second = second.len();
    let kernel = run_kernel(choice, shape, steps, width, height, in_first, in_second)?;
    run_steps(
        first,
        second,
        width as usize,
        height as usize,
        steps,
        kernel,
    );
    Ok(())
}

// The same where no choice is named (REFERENCE, S2.8): a public call, and no twin.
pub fn run(
    shape: Shape,
    steps: u32,
    width: u32,
    height: u32,
    first: &mut [u16],
    second: &mut [u16],
) -> Result<(), ErrorCode>
    ensures outcome { result ≡ (run_of default_choice shape steps width height first.old second.old).outcome }
    ensures first { first.new ≡ (run_of default_choice shape steps width height first.old second.old).first }
    ensures second { second.new ≡ (run_of default_choice shape steps width height first.old second.old).second }
{
    run_by(Choice::Binomial, shape, steps, width, height, first, second)
}

// Whether the last of so many steps is in the first picture.
pub fn ends_in_first(steps: u32) -> bool
    ensures { result ≡ is_even steps }
{
    steps % 2 == 0
}

// What the reader of a run is shown: the pixels of its last step, or an empty part where the run with the same arguments is
// refused. A run changes no length, so it is refused with the pictures that it left exactly where it was with those it found.
// Which part that is, and whether there is one, is the same for each choice.
pub fn shown_by<'a>(
    choice: Choice,
    shape: Shape,
    steps: u32,
    width: u32,
    height: u32,
    first: &'a [u16],
    second: &'a [u16],
) -> &'a [u16]
    ensures { result.now ≡ shown_of shape steps width height first.now second.now }
{
    let in_first = first.len();
    let in_second = second.len();
    match run_kernel(choice, shape, steps, width, height, in_first, in_second) {
        Ok(_) => {
            let size = limits::area(width, height);
            if ends_in_first(steps) {
                &first[..size]
            } else {
                &second[..size]
            }
        }
        Err(_) => &[],
    }
}

// The same where no choice is named (REFERENCE, S2.8): a public call, and no twin.
pub fn shown<'a>(
    shape: Shape,
    steps: u32,
    width: u32,
    height: u32,
    first: &'a [u16],
    second: &'a [u16],
) -> &'a [u16]
    ensures { result.now ≡ shown_of shape steps width height first.now second.now }
{
    shown_by(Choice::Binomial, shape, steps, width, height, first, second)
}

// A run within one picture (docs/REFERENCE.md, S5.1 to S5.4): the picture is smoothed in so many steps with the kernel of a shape, and then
// holds the last step, or refusal 3, 4, 5, 6, 9 or 11.
pub fn run_in_place_by(
    choice: Choice,
    shape: Shape,
    steps: u32,
    width: u32,
    height: u32,
    picture: &mut [u16],
) -> Result<(), ErrorCode>
    ensures outcome { result ≡ in_place_outcome shape steps width height picture.old }
    ensures picture { picture.new ≡ in_place_after choice shape steps width height picture.old }
{
    let pixels = picture.len();
    let kernel = run_kernel(choice, shape, steps, width, height, pixels, pixels)?;
    in_place::steps(picture, width as usize, height as usize, steps, kernel);
    Ok(())
}

// The same where no choice is named (REFERENCE, S2.8): a public call, and no twin.
pub fn run_in_place(
    shape: Shape,
    steps: u32,
    width: u32,
    height: u32,
    picture: &mut [u16],
) -> Result<(), ErrorCode>
    ensures outcome { result ≡ in_place_outcome shape steps width height picture.old }
    ensures picture { picture.new ≡ in_place_after default_choice shape steps width height picture.old }
{
    run_in_place_by(Choice::Binomial, shape, steps, width, height, picture)
}
