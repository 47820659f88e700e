// A view of an image: lent pixels with their width and height kept together (REFERENCE: "in one record that refers to them").
// Its methods are few and thin: `read` takes it apart and calls the covered core, `image::pixel_at`. Crates above
// call `read_pixel`, whose parameters are plain, so that they have no view of their own.
#![tactic(auto)]

ghost use Rattle.std.specs.Prelude.{◌≡◌};
ghost use Rattle.image.specs.Reading.{reading_of};

use limits::ErrorCode;

#[derive(Clone, Copy)]
pub struct View<'a> {
    pub pixels: &'a [u16],
    pub width: u32,
    pub height: u32,
}

impl<'a> View<'a> {
    pub fn new(pixels: &'a [u16], width: u32, height: u32) -> View<'a>
        ensures { (result.pixels ≡ pixels.entry) × ((result.width ≡ width) × (result.height ≡ height)) }
    {
        View {
            pixels,
            width,
            height,
        }
    }

    // The pixel at a column and a row, the nearest one outside, on each axis separately. Refusals 6 and 9.
    pub fn read(self, column: i32, row: i32) -> Result<u16, ErrorCode>
        ensures { result ≡ reading_of self.entry.width self.entry.height self.entry.pixels.now column row }
    {
        image::pixel_at(self.pixels, self.width, self.height, column, row)
    }
}

// The same with plain parameters.
pub fn read_pixel(
    pixels: &[u16],
    width: u32,
    height: u32,
    column: i32,
    row: i32,
) -> Result<u16, ErrorCode>
    ensures { result ≡ reading_of width height pixels.now column row }
{
    View::new(pixels, width, height).read(column, row)
}
