// Smoothing steps within one image. Beside the image stand two lines of 1024 pixels and nothing else that is as large as a
// row. An inner crate: its functions take a kernel or have a `requires`, only crates of this repository call them, and nothing
// exports them.
//
// The next image is made in bands, each of as many whole rows as a line holds; the first row and the last are bands by themselves, since they
// have themselves above or below. A new band waits in a line until the band below it is made, which reads the old rows; then it is put
// in its place. So the two lines take turns.
//
// A band is made in one stretch, from the pixels as they stand: the pixels beside the first and the last one of a row are then those of other
// rows, so these two are made again by themselves. One long loop is faster than a short one for each row.
#![tactic(auto)]

ghost use Rattle.std.specs.Prelude.{◌≡◌, List, ℕ, ◌+◌, ◌-◌, ◌*◌, ◌^◌, ◌<◌, ◌≤◌, min, length, get_or, take, drop};
ghost use Rattle.std.proofs.Math.Seq.{paste};
ghost use Rattle.limits.specs.Limits.{longest_side};
ghost use Rattle.averaging.specs.Steps.{step_of, steps_of};
ghost use Rattle.row_core.specs.Prepared.{StepKernel, kernel_of_coefficients};
ghost use Rattle.row_core.specs.Rows.{part};
ghost use Rattle.row_core.specs.Stretches.{column_in, average_of, Inside};
ghost use Rattle.in_place.specs.Bands.{OnePicture, stretch_from, band_pixel, BandInside, RowInside, Place, Room, Waiting};

use kernel::Kernel;
use row_core::{Coefficients, Starts};

// The pixels of a saved line.
const LINE: usize = limits::LONGEST_SIDE as usize;

// A band: where its rows begin in the image, those above and those below them, and how many they are.
#[derive(Clone, Copy)]
struct Band {
    starts: Starts,
    rows: usize,
}

// What the steps of an image go by.
#[derive(Clone, Copy)]
struct Plan {
    coefficients: Coefficients,
    width: usize,
    height: usize,
    // How many whole rows a line has room for.
    room: usize,
    ghost sides: { OnePicture (width * height) width height },
    ghost fits: { width * height < 2 ^ 64 },
    ghost lines: { Room width room },
}

fn blank_line() -> [u16; LINE]
    ensures { length result ≡ longest_side }
{
    [0; LINE]
}

// A stretch of the next image, into a line from an index on, by the products that the kernel needs.
fn stretch(
    source: &[u16],
    starts: Starts,
    line: &mut [u16],
    from: usize,
    size: usize,
    coefficients: Coefficients,
)
    requires { Inside (length source.now) starts (size + 2) × (from + size ≤ length line.old) }
    ensures { line.new ≡ paste line.old from (stretch_from (kernel_of_coefficients coefficients) size source.now starts) size }
{
    let end = from + size;
    coefficients.make(&mut line[from..end], starts.rows(source, size + 2));
}

// From the first pixel of a row to the next, if there is one.
fn to_next(width: usize) -> usize
    ensures { result ≡ min 1 (width - 1) }
{
    if width > 1 { 1 } else { 0 }
}

// The first pixels of a line, to their place in the image.
fn put(picture: &mut [u16], at: usize, line: &[u16], size: usize)
    requires { (size ≤ length line.now) × (at + size ≤ length picture.old) }
    ensures { picture.new ≡ paste picture.old at line.now size }
{
    let end = at + size;
    picture[at..end].copy_from_slice(&line[..size]);
}

// Lent to what is done for each band: a copy of it for each band takes as long as some pixels.
impl Plan {
    fn new(coefficients: Coefficients, width: usize, height: usize) -> Plan
        requires sides { OnePicture (width * height) width height }
        requires fits { width * height < 2 ^ 64 }
        ensures { (result.coefficients ≡ coefficients) × (result.width ≡ width) × (result.height ≡ height) }
    {
        Plan {
            coefficients,
            width,
            height,
            room: LINE / width,
        }
    }

    // The first and the last pixel of the row at an index of a band. Beside them stands the pixel itself, where the image ends.
    fn make_ends_of(&self, source: &[u16], starts: Starts, line: &mut [u16], row: usize)
        requires { RowInside (length source.now) starts (length line.old) row self.now.width }
        ensures row_after { get_or line.new row 0 ≡ average_of (kernel_of_coefficients self.now.coefficients) (column_in source.now starts row) (column_in source.now starts row) (column_in source.now starts (row + min 1 (self.now.width - 1))) }
        ensures width_after { get_or line.new (row + (self.now.width - 1)) 0 ≡ average_of (kernel_of_coefficients self.now.coefficients) (column_in source.now starts (row + (self.now.width - 2))) (column_in source.now starts (row + (self.now.width - 1))) (column_in source.now starts (row + (self.now.width - 1))) }
        ensures by_index { (i : ℕ) → (i < row → get_or line.new i 0 ≡ get_or line.old i 0) × (row < i → i < row + (self.now.width - 1) → get_or line.new i 0 ≡ get_or line.old i 0) × (row + self.now.width ≤ i → get_or line.new i 0 ≡ get_or line.old i 0) }
    {
        let inner = to_next(self.width);
        let last = row + (self.width - 1);
        let second = row + inner;
        let before = last - inner;
        line[row] = self
            .coefficients
            .average_at(source, starts, row, row, second);
        line[last] = self
            .coefficients
            .average_at(source, starts, before, last, last);
    }

    // The first and the last pixel of every row of a band.
    fn make_ends(&self, source: &[u16], band: Band, line: &mut [u16])
        requires { BandInside (length source.now) band.starts (length line.old) band.rows self.now.width }
        ensures { (j x : ℕ) → j < band.rows → x < self.now.width → (0 < x → x + 1 < self.now.width → get_or line.old (j * self.now.width + x) 0 ≡ band_pixel (kernel_of_coefficients self.now.coefficients) self.now.width source.now band.starts j x) → get_or line.new (j * self.now.width + x) 0 ≡ band_pixel (kernel_of_coefficients self.now.coefficients) self.now.width source.now band.starts j x }
    {
        for j in 0..band.rows {
            self.make_ends_of(source, band.starts, line, j * self.width);
        }
    }

    // The pixels of a band between its first and its last one: right but at the ends of rows, however wide these are.
    fn make_inside(&self, source: &[u16], starts: Starts, line: &mut [u16], size: usize)
        requires { Inside (length source.now) starts size × (size ≤ length line.old) }
        ensures { (w j x : ℕ) → j * w + w ≤ size → 0 < x → x + 1 < w → get_or line.new (j * w + x) 0 ≡ band_pixel (kernel_of_coefficients self.now.coefficients) w source.now starts j x }
    {
        if size > 2 {
            stretch(source, starts, line, 1, size - 2, self.coefficients);
        }
    }

    // The pixels of a band of the next image, into a line.
    fn make_band(&self, source: &[u16], band: Band, line: &mut [u16])
        requires { BandInside (length source.now) band.starts (length line.old) band.rows self.now.width }
        ensures { (j x : ℕ) → j < band.rows → x < self.now.width → get_or line.new (j * self.now.width + x) 0 ≡ band_pixel (kernel_of_coefficients self.now.coefficients) self.now.width source.now band.starts j x }
    {
        let size = band.rows * self.width;
        self.make_inside(source, band.starts, line, size);
        self.make_ends(source, band, line);
    }

    // Where the row nearest below the first row begins.
    fn below_first(&self) -> usize
        ensures { result ≡ min 1 (self.now.height - 1) * self.now.width }
    {
        if self.height > 1 { self.width } else { 0 }
    }

    // The first row of the next image, into a line. Above it stands the row itself, and below it too where there is no other.
    fn make_first(&self, picture: &[u16], line: &mut [u16])
        requires { (length picture.now ≡ self.now.width * self.now.height) × (self.now.width ≤ length line.old) }
        ensures { Waiting (kernel_of_coefficients self.now.coefficients) self.now.width self.now.height picture.now picture.now line.new 0 self.now.width }
    {
        let starts = Starts {
            above: 0,
            at: 0,
            below: self.below_first(),
        };
        self.make_band(picture, Band { starts, rows: 1 }, line);
    }

    // The band from a row on that has another one above it: the last row by itself, or as many rows above it as a line has room for.
    fn next_band(&self, y: usize) -> Band
        requires { (1 ≤ y) × (y < self.now.height) }
        ensures starts { (result.starts.above + self.now.width ≡ y * self.now.width) × (result.starts.at ≡ y * self.now.width) }
        ensures last { y + 1 ≡ self.now.height → (result.starts.below ≡ y * self.now.width) × (result.rows ≡ 1) }
        ensures inner { y + 1 < self.now.height → (result.starts.below ≡ y * self.now.width + self.now.width) × (result.rows ≡ min self.now.room (self.now.height - 1 - y)) }
    {
        let at = y * self.width;
        let above = at - self.width;
        let below = y + 1;
        if below == self.height {
            Band {
                starts: Starts {
                    above,
                    at,
                    below: at,
                },
                rows: 1,
            }
        } else {
            Band {
                starts: Starts {
                    above,
                    at,
                    below: at + self.width,
                },
                rows: self.room.min(self.height - below),
            }
        }
    }

    // Makes the band from a row on, if there is one, in a line, and answers how many rows it has.
    fn make_next(&self, picture: &[u16], line: &mut [u16], y: usize) -> usize
        requires picture { (length picture.now ≡ self.now.width * self.now.height) × (longest_side ≤ length line.old) }
        requires next { (1 ≤ y) × (y ≤ self.now.height) }
        ensures place { Place self.now.height y result × (result * self.now.width ≤ longest_side) }
        ensures by_index { (old : List ℕ) → length old ≡ self.now.width * self.now.height → (y < self.now.height → drop ((y - 1) * self.now.width) picture.now ≡ drop ((y - 1) * self.now.width) old) → take (result * self.now.width) line.new ≡ part (y * self.now.width) (result * self.now.width) (step_of (kernel_of_coefficients self.now.coefficients) self.now.width self.now.height old) }
    {
        if y < self.height {
            let band = self.next_band(y);
            self.make_band(picture, band, line);
            band.rows
        } else {
            0
        }
    }

    // The band from a row on waits in a line: makes the band below it, if there is one, in the other line, and puts the first one in its
    // place. Answers how many rows wait then.
    fn turn(
        &self,
        picture: &mut [u16],
        fresh: &mut [u16],
        waiting: &[u16],
        y: usize,
        rows: usize,
    ) -> usize
        requires picture { (length picture.old ≡ self.now.width * self.now.height) × (longest_side ≤ length fresh.old) × (longest_side ≤ length waiting.now) }
        requires place { Place self.now.height y rows × (rows * self.now.width ≤ longest_side) }
        ensures place_2 { Place self.now.height (y + rows) result × (result * self.now.width ≤ longest_side) }
        ensures by_index { (old : List ℕ) → length old ≡ self.now.width * self.now.height → Waiting (kernel_of_coefficients self.now.coefficients) self.now.width self.now.height old picture.old waiting.now (y * self.now.width) (rows * self.now.width) → Waiting (kernel_of_coefficients self.now.coefficients) self.now.width self.now.height old picture.new fresh.new ((y + rows) * self.now.width) (result * self.now.width) }
    {
        let next = y + rows;
        let made = self.make_next(picture, fresh, next);
        put(picture, y * self.width, waiting, rows * self.width);
        made
    }

    // One step: the next image, whole, in the place of the image, by way of two lines.
    fn step(self, picture: &mut [u16], even: &mut [u16], odd: &mut [u16])
        requires { (length picture.old ≡ self.width * self.height) × (longest_side ≤ length even.old) × (longest_side ≤ length odd.old) }
        ensures { picture.new ≡ step_of (kernel_of_coefficients self.coefficients) self.width self.height picture.old }
    {
        self.make_first(picture, even);
        let mut y = 0usize;
        let mut rows = 1usize;
        // no range counts this: each band says itself how many rows it has, and the two lines change places after each
        while y < self.height {
            let next = y + rows;
            let second = self.turn(picture, odd, even, y, rows);
            rows = self.turn(picture, even, odd, next, second);
            y = next + second;
        }
    }
}

// So many steps of an image in its place. Two lines stand beside it, and nothing else that is as large as a row.
pub fn steps(picture: &mut [u16], width: usize, height: usize, count: u32, kernel: Kernel)
    requires step_kernel { StepKernel kernel }
    requires one_picture { OnePicture (length picture.old) width height }
    ensures { picture.new ≡ steps_of kernel width height count picture.old }
{
    let plan = Plan::new(row_core::coefficients_of(kernel), width, height);
    let mut even = blank_line();
    let mut odd = blank_line();
    for _ in 0..count {
        plan.step(picture, &mut even, &mut odd);
    }
}
