// A run between two pictures, and which of them is shown after it, and a run within one picture, exported. What each call writes and refuses is said in
// picture_calls. The choice of the free number is a number: 1 names smallest, and every other the binomial one.
ghost use Rattle.std.specs.Prelude.{◌≡◌};
ghost use Rattle.limits.specs.Errors.{outcome_number};
ghost use Rattle.kernel.specs.Choice.{choice_of};
ghost use Rattle.smoothing.specs.Runs.{run_of};
ghost use Rattle.smoothing.specs.InPlace.{in_place_outcome, in_place_after};
ghost use Rattle.picture_calls.specs.Pictures.{shown_code, shown_picture_after};

use covariance::{Direction, Shape};

// A run with the kernel whose shape is a covariance matrix in 1/4096 square pixel.
#[unsafe(no_mangle)]
pub extern "C" fn vokhsaot_run_matrix_by(
    choice: u32,
    xx: i32,
    xy: i32,
    yy: i32,
    steps: u32,
    width: u32,
    height: u32,
    first: &mut [u16],
    second: &mut [u16],
) -> u32
    ensures value { result ≡ outcome_number (run_of (choice_of choice) (Shape.Matrix xx xy yy) steps width height first.old second.old).outcome }
    ensures first_after { first.new ≡ (run_of (choice_of choice) (Shape.Matrix xx xy yy) steps width height first.old second.old).first }
    ensures second_after { second.new ≡ (run_of (choice_of choice) (Shape.Matrix xx xy yy) steps width height first.old second.old).second }
{
    let matrix = Shape::Matrix(xx, xy, yy);
    let outcome = picture_calls::run(choice, matrix, steps, width, height, first, second);
    limits::outcome_number(outcome)
}

// A run with the kernel whose shape is round, of this variance in square pixels.
#[unsafe(no_mangle)]
pub extern "C" fn vokhsaot_run_round_by(
    choice: u32,
    variance: f64,
    steps: u32,
    width: u32,
    height: u32,
    first: &mut [u16],
    second: &mut [u16],
) -> u32
    ensures value { result ≡ outcome_number (run_of (choice_of choice) (Shape.Round variance) steps width height first.old second.old).outcome }
    ensures first_after { first.new ≡ (run_of (choice_of choice) (Shape.Round variance) steps width height first.old second.old).first }
    ensures second_after { second.new ≡ (run_of (choice_of choice) (Shape.Round variance) steps width height first.old second.old).second }
{
    let round = Shape::Round(variance);
    let outcome = picture_calls::run(choice, round, steps, width, height, first, second);
    limits::outcome_number(outcome)
}

// A run with the kernel whose shape is oval, by its variances along and across a direction.
#[unsafe(no_mangle)]
pub extern "C" fn vokhsaot_run_oval_by(
    choice: u32,
    long: f64,
    short: f64,
    cosine: f64,
    sine: f64,
    steps: u32,
    width: u32,
    height: u32,
    first: &mut [u16],
    second: &mut [u16],
) -> u32
    ensures value { result ≡ outcome_number (run_of (choice_of choice) (Shape.Oval long short (record { cosine = cosine; sine = sine })) steps width height first.old second.old).outcome }
    ensures first_after { first.new ≡ (run_of (choice_of choice) (Shape.Oval long short (record { cosine = cosine; sine = sine })) steps width height first.old second.old).first }
    ensures second_after { second.new ≡ (run_of (choice_of choice) (Shape.Oval long short (record { cosine = cosine; sine = sine })) steps width height first.old second.old).second }
{
    let oval = Shape::Oval(long, short, Direction { cosine, sine });
    let outcome = picture_calls::run(choice, oval, steps, width, height, first, second);
    limits::outcome_number(outcome)
}

// Which of its two pictures a run of so many steps ends in: writes 0 for the first, 1 for the second. Refusal 5.
#[unsafe(no_mangle)]
pub extern "C" fn vokhsaot_shown(steps: u32, picture: &mut u32) -> u32
    ensures value { result ≡ shown_code steps }
    ensures picture_after { picture.new ≡ shown_picture_after steps picture.old }
{
    let outcome = picture_calls::shown(steps, picture);
    limits::outcome_number(outcome)
}

// A run within one picture, with the kernel whose shape is a covariance matrix in 1/4096 square pixel.
#[unsafe(no_mangle)]
pub extern "C" fn vokhsaot_run_in_place_matrix_by(
    choice: u32,
    xx: i32,
    xy: i32,
    yy: i32,
    steps: u32,
    width: u32,
    height: u32,
    picture: &mut [u16],
) -> u32
    ensures value { result ≡ outcome_number (in_place_outcome (Shape.Matrix xx xy yy) steps width height picture.old) }
    ensures picture_after { picture.new ≡ in_place_after (choice_of choice) (Shape.Matrix xx xy yy) steps width height picture.old }
{
    let shape = Shape::Matrix(xx, xy, yy);
    let outcome = picture_calls::run_in_place(choice, shape, steps, width, height, picture);
    limits::outcome_number(outcome)
}

// A run within one picture, with the kernel whose shape is round, of this variance in square pixels.
#[unsafe(no_mangle)]
pub extern "C" fn vokhsaot_run_in_place_round_by(
    choice: u32,
    variance: f64,
    steps: u32,
    width: u32,
    height: u32,
    picture: &mut [u16],
) -> u32
    ensures value { result ≡ outcome_number (in_place_outcome (Shape.Round variance) steps width height picture.old) }
    ensures picture_after { picture.new ≡ in_place_after (choice_of choice) (Shape.Round variance) steps width height picture.old }
{
    let shape = Shape::Round(variance);
    let outcome = picture_calls::run_in_place(choice, shape, steps, width, height, picture);
    limits::outcome_number(outcome)
}

// A run within one picture, with the kernel whose shape is oval, by its variances along and across a direction.
#[unsafe(no_mangle)]
pub extern "C" fn vokhsaot_run_in_place_oval_by(
    choice: u32,
    long: f64,
    short: f64,
    cosine: f64,
    sine: f64,
    steps: u32,
    width: u32,
    height: u32,
    picture: &mut [u16],
) -> u32
    ensures value { result ≡ outcome_number (in_place_outcome (Shape.Oval long short (record { cosine = cosine; sine = sine })) steps width height picture.old) }
    ensures picture_after { picture.new ≡ in_place_after (choice_of choice) (Shape.Oval long short (record { cosine = cosine; sine = sine })) steps width height picture.old }
{
    let shape = Shape::Oval(long, short, Direction { cosine, sine });
    let outcome = picture_calls::run_in_place(choice, shape, steps, width, height, picture);
    limits::outcome_number(outcome)
}
