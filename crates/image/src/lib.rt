// Pixels of an image (REFERENCE: a picture) that is lent as a slice with a width and a height. The covered core of reading
// stands here, with plain parameters; only `view` calls it, and the reading that users reach is `view`'s.
#![tactic(auto)]

ghost use Rattle.std.specs.Prelude.{◌≡◌, ◌≤◌, ◌<◌};
ghost use Rattle.image.specs.Image.{nearest_place};
ghost use Rattle.image.specs.Reading.{reading_of};

use limits::ErrorCode;

// The nearest of the places of an axis to a signed place.
fn nearest_place(count: u32, place: i32) -> usize
    requires { 1 ≤ count }
    ensures { (result ≡ nearest_place count place) × (result < count) }
{
    let last = count as usize - 1;
    usize::try_from(place).unwrap_or(0).min(last)
}

// The pixel at a column and a row, the nearest one outside, on each axis separately. Refusals 6 and 9.
#[tactic(auto, unfolding(crate::specs::Reading::reading_of, crate::specs::Image::pixel_at))]
pub fn pixel_at(
    pixels: &[u16],
    width: u32,
    height: u32,
    column: i32,
    row: i32,
) -> Result<u16, ErrorCode>
    ensures { result ≡ reading_of width height pixels.now column row }
{
    if !limits::sides_in_range(width, height) {
        return Err(ErrorCode::SideOutOfRange);
    }
    if !limits::fills_picture(pixels.len(), width, height) {
        return Err(ErrorCode::WrongLength);
    }
    let y = nearest_place(height, row);
    let x = nearest_place(width, column);
    Ok(pixels[y * width as usize + x])
}
