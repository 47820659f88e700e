// The differences of a picture and its single pixels, exported. What each call writes and refuses is said in picture_calls.
ghost use Rattle.std.specs.Prelude.{◌≡◌};
ghost use Rattle.limits.specs.Errors.{value_or};
ghost use Rattle.image.specs.Reading.{reading_of, reading_number, reading_values};
ghost use Rattle.picture_calls.specs.Pictures.{difference_code, difference_after, directional_code, directional_after};

use covariance::Direction;
use differences::Difference;

// L(x+1) - L(x-1), twice the derivative in x, at every place.
#[unsafe(no_mangle)]
pub extern "C" fn vokhsaot_first_x(pixels: &[u16], width: u32, height: u32, res: &mut [i32]) -> u32
    ensures value { result ≡ difference_code width height pixels.now res.old }
    ensures res_after { res.new ≡ difference_after Difference.FirstX width height pixels.now res.old }
{
    let outcome = picture_calls::difference(Difference::FirstX, pixels, width, height, res);
    limits::outcome_number(outcome)
}

// L(y+1) - L(y-1), twice the derivative in y, at every place.
#[unsafe(no_mangle)]
pub extern "C" fn vokhsaot_first_y(pixels: &[u16], width: u32, height: u32, res: &mut [i32]) -> u32
    ensures value { result ≡ difference_code width height pixels.now res.old }
    ensures res_after { res.new ≡ difference_after Difference.FirstY width height pixels.now res.old }
{
    let outcome = picture_calls::difference(Difference::FirstY, pixels, width, height, res);
    limits::outcome_number(outcome)
}

// L(x+1) - 2 L + L(x-1), at every place.
#[unsafe(no_mangle)]
pub extern "C" fn vokhsaot_second_x(pixels: &[u16], width: u32, height: u32, res: &mut [i32]) -> u32
    ensures value { result ≡ difference_code width height pixels.now res.old }
    ensures res_after { res.new ≡ difference_after Difference.SecondX width height pixels.now res.old }
{
    let outcome = picture_calls::difference(Difference::SecondX, pixels, width, height, res);
    limits::outcome_number(outcome)
}

// L(y+1) - 2 L + L(y-1), at every place.
#[unsafe(no_mangle)]
pub extern "C" fn vokhsaot_second_y(pixels: &[u16], width: u32, height: u32, res: &mut [i32]) -> u32
    ensures value { result ≡ difference_code width height pixels.now res.old }
    ensures res_after { res.new ≡ difference_after Difference.SecondY width height pixels.now res.old }
{
    let outcome = picture_calls::difference(Difference::SecondY, pixels, width, height, res);
    limits::outcome_number(outcome)
}

// L(+,+) - L(-,+) - L(+,-) + L(-,-), four times the mixed derivative, at every place.
#[unsafe(no_mangle)]
pub extern "C" fn vokhsaot_mixed(pixels: &[u16], width: u32, height: u32, res: &mut [i32]) -> u32
    ensures value { result ≡ difference_code width height pixels.now res.old }
    ensures res_after { res.new ≡ difference_after Difference.Mixed width height pixels.now res.old }
{
    let outcome = picture_calls::difference(Difference::Mixed, pixels, width, height, res);
    limits::outcome_number(outcome)
}

// The cosine times the first difference in x and the sine times that in y, at every place. Refusals 4, 6 and 9.
#[unsafe(no_mangle)]
pub extern "C" fn vokhsaot_directional(
    cosine: f64,
    sine: f64,
    pixels: &[u16],
    width: u32,
    height: u32,
    res: &mut [f64],
) -> u32
    ensures value { result ≡ directional_code (record { cosine = cosine; sine = sine }) width height pixels.now res.old }
    ensures res_after { res.new ≡ directional_after (record { cosine = cosine; sine = sine }) width height pixels.now res.old }
{
    let direction = Direction { cosine, sine };
    let outcome = picture_calls::directional(direction, pixels, width, height, res);
    limits::outcome_number(outcome)
}

// The pixel at a column and a row, the nearest one outside the picture. Refusals 6 and 9.
#[unsafe(no_mangle)]
pub extern "C" fn vokhsaot_pixel(
    pixels: &[u16],
    width: u32,
    height: u32,
    column: i32,
    row: i32,
    pixel: &mut u16,
) -> u32
    ensures value { result ≡ reading_number (reading_of width height pixels.now column row) }
    ensures pixel_after { pixel.new ≡ value_or (reading_values (reading_of width height pixels.now column row)) pixel.old }
{
    let outcome = picture_calls::pixel_at(pixels, width, height, column, row, pixel);
    limits::outcome_number(outcome)
}
