// The covariance of a shape, exported. What each call writes and refuses is said in picture_calls.
ghost use Rattle.std.specs.Prelude.{◌≡◌};
ghost use Rattle.picture_calls.specs.Pictures.{covariance_code, covariance_after};

use covariance::{Direction, Shape};

// Writes the covariance of a round shape of this variance in square pixels.
#[unsafe(no_mangle)]
pub extern "C" fn vokhsaot_covariance_round(variance: f64, entries: &mut [i32]) -> u32
    ensures value { result ≡ covariance_code (Shape.Round variance) entries.old }
    ensures entries_after { entries.new ≡ covariance_after (Shape.Round variance) entries.old }
{
    let outcome = picture_calls::write_covariance(Shape::Round(variance), entries);
    limits::outcome_number(outcome)
}

// Writes the covariance of an oval shape, by its variances along and across a direction.
#[unsafe(no_mangle)]
pub extern "C" fn vokhsaot_covariance_oval(
    long: f64,
    short: f64,
    cosine: f64,
    sine: f64,
    entries: &mut [i32],
) -> u32
    ensures value { result ≡ covariance_code (Shape.Oval long short (record { cosine = cosine; sine = sine })) entries.old }
    ensures entries_after { entries.new ≡ covariance_after (Shape.Oval long short (record { cosine = cosine; sine = sine })) entries.old }
{
    let oval = Shape::Oval(long, short, Direction { cosine, sine });
    let outcome = picture_calls::write_covariance(oval, entries);
    limits::outcome_number(outcome)
}
