// The row core: one row of the next image from three rows, whichever slices they come from. An inner crate: its functions take
// a kernel or have a `requires`, only crates of this repository call them, and nothing exports them.
//
// A row stands in a line between its own first and last pixel: the nearest pixel outside is then a neighbour like any other,
// and one loop without a branch makes a row. Pixels are widened there once, and weights fit 32 bits, so that the compiler
// multiplies several at a time. A line holds twice each pixel and one more: the sum of weight times such numbers is then twice
// that of weight times pixel, and the sum of the weights, half of which rounds to the nearest, halves up. So nothing is added
// for rounding. The sum is divided by 8 × M, which is 16384 × (2 × steps), by a shift and one more multiplication.
//
// Where there is no room for such lines, pixels are read as they stand (`smooth_stretch`): those of a stretch of an image that has
// a pixel more on both sides in each of the three rows. Rounding is then added to the first quotient.
#![tactic(auto)]

ghost use Rattle.std.specs.Prelude.{List, ℕ, ◌≡◌, ◌+◌, ◌*◌, ◌/◌, ◌^◌, ◌≤◌, ◌<◌, length, take, drop};
ghost use Rattle.limits.specs.Limits.{largest_pixel};
ghost use Rattle.kernel.specs.Offsets.{weighted};
ghost use Rattle.row_core.specs.Weights.{Counts, ProductsOf};
ghost use Rattle.row_core.specs.Prepared.{StepKernel, kernel_of_coefficients, StandsFor};
ghost use Rattle.row_core.specs.Rows.{doubled, Doubled, Lines, column_of, pixel_in, padded_of, row_of};
ghost use Rattle.averaging.specs.Steps.{nearest};
ghost use Rattle.row_core.specs.Stretches.{column_in, Pixels, Long, Inside, average_of, stretch_of};
ghost use Rattle.kernel.specs.declared.Kernel.{Kernel};

mod coefficients;
mod weights;

pub use coefficients::{Coefficients, Recipe};
use kernel::Kernel;
pub use weights::{Products, Weights};

// The sum of a kernel's weights, for each of its steps.
const SUM_PER_STEP: u64 = 4 * kernel::UNITS_PER_SQUARE_PIXEL;

// What stands for 1 in the reciprocal of twice a step count: 2^32. The quotient is then the upper half of the product, which
// the compiler takes without a shift; a step count itself would need 33 bits for the reciprocal of 1.
const RECIPROCAL_ONE: u64 = 4294967296;

pub fn coefficients_of(kernel: Kernel) -> Coefficients
    requires { StepKernel kernel }
    ensures { StandsFor kernel result }
{
    let steps = kernel.sum / SUM_PER_STEP;
    let halves = steps * 2;
    let reciprocal = ((RECIPROCAL_ONE + (halves - 1)) / halves) as u32;
    let rest = (kernel.sum % SUM_PER_STEP) as u32;
    let weights = Weights {
        diagonal: kernel.weights[0] as u32,
        down: kernel.weights[1] as u32,
        across: kernel.weights[2] as u32,
        along: kernel.weights[3] as u32,
        centre: kernel.weights[4] as u32,
    };
    Coefficients {
        weights,
        reciprocal,
        half: kernel.sum / 2,
        rest,
    }
}

// What makes pixels: three lines make a row of them. A trait and no closure, since the compiler has to draw the method into the call of
// every kind, however large it is, and a closure cannot be marked so.
pub trait Maker {
    // What it needs of the pixels as they were, and what it leaves by a kernel.
    ghost takes: { Self → List ℕ → Type 0 };

    ghost makes: { Self → Kernel → List ℕ → List ℕ → Type 0 };

    fn make(self, recipe: Recipe, pixels: &mut [u16])
        requires { takes self pixels.old }
        ensures { makes self (kernel_of_coefficients recipe.coefficients) pixels.old pixels.new };
}

impl Coefficients {
    fn with(self, products: Products) -> Recipe
        requires { ProductsOf self.weights products }
        ensures { result.coefficients ≡ self }
    {
        Recipe {
            coefficients: self,
            products,
        }
    }

    // Has pixels made by the products that the kernel needs. Each kind of kernel has a call of its own, so that the compiler makes a
    // loop for it.
    #[inline(always)]
    pub fn make<M: Maker>(self, pixels: &mut [u16], maker: M)
        requires { M.takes maker pixels.old }
        ensures { M.makes maker (kernel_of_coefficients self) pixels.old pixels.new }
    {
        let w = self.weights;
        if w.across != w.diagonal {
            self.make_leaning(pixels, maker)
        } else if w.along != w.down {
            self.make_upright(pixels, maker)
        } else if w.diagonal == 0 {
            maker.make(self.with(w.even_cross()), pixels)
        } else if w.is_wide() {
            maker.make(self.with(w.round_wide()), pixels)
        } else {
            maker.make(self.with(w.round()), pixels)
        }
    }

    // By those of a kernel whose corners weigh the same.
    #[inline(always)]
    fn make_upright<M: Maker>(self, pixels: &mut [u16], maker: M)
        requires equal { self.weights.across ≡ self.weights.diagonal }
        requires takes { M.takes maker pixels.old }
        ensures { M.makes maker (kernel_of_coefficients self) pixels.old pixels.new }
    {
        let w = self.weights;
        if w.diagonal == 0 {
            maker.make(self.with(w.cross()), pixels)
        } else if w.is_wide() {
            maker.make(self.with(w.upright_wide()), pixels)
        } else if w.is_tall() {
            maker.make(self.with(w.upright_tall()), pixels)
        } else {
            maker.make(self.with(w.upright()), pixels)
        }
    }

    // Of any kernel; asked where corners do not weigh the same.
    #[inline(always)]
    fn make_leaning<M: Maker>(self, pixels: &mut [u16], maker: M)
        requires { M.takes maker pixels.old }
        ensures { M.makes maker (kernel_of_coefficients self) pixels.old pixels.new }
    {
        let w = self.weights;
        if w.across == 0 {
            maker.make(self.with(w.falling()), pixels)
        } else if w.diagonal == 0 {
            maker.make(self.with(w.rising()), pixels)
        } else if w.centre == 0 {
            maker.make(self.with(w.hollow()), pixels)
        } else if w.is_wide() {
            maker.make(self.with(w.full_wide()), pixels)
        } else if w.is_tall() {
            maker.make(self.with(w.full_tall()), pixels)
        } else {
            maker.make(self.with(w.full()), pixels)
        }
    }

    // A sum of weight times what lines hold, over twice the sum of the weights. The first quotient has at most 23 bits; to say that
    // it fits 32 lets the compiler multiply it as it does the weights.
    fn divide(self, total: u64) -> u16
        requires { total ≤ (kernel_of_coefficients self).sum * doubled largest_pixel }
        ensures { result ≡ total / (2 * (kernel_of_coefficients self).sum) }
    {
        let quotient = (total / SUM_PER_STEP) as u32;
        ((quotient as u64) * (self.reciprocal as u64) / RECIPROCAL_ONE) as u16
    }

    // A sum of weight times pixel, over the sum of the weights, to the nearest unit, halves up: half the sum is the step count, once
    // the sum is divided by half of what a step has.
    fn divide_to_nearest(self, total: u64) -> u16
        requires { total ≤ (kernel_of_coefficients self).sum * largest_pixel }
        ensures { result ≡ nearest total (kernel_of_coefficients self).sum }
    {
        let quotient = ((total + self.half) / (SUM_PER_STEP / 2)) as u32;
        ((quotient as u64) * (self.reciprocal as u64) / RECIPROCAL_ONE) as u16
    }

    // One pixel by itself, from three columns of the three rows, by all five products. For the ends of rows, where a neighbour is the pixel itself.
    pub fn average_at(
        self,
        source: &[u16],
        starts: Starts,
        left: usize,
        here: usize,
        right: usize,
    ) -> u16
        requires { Inside (length source.now) starts (left + 1) × Inside (length source.now) starts (here + 1) × Inside (length source.now) starts (right + 1) }
        ensures { result ≡ average_of (kernel_of_coefficients self) (column_in source.now starts left) (column_in source.now starts here) (column_in source.now starts right) }
    {
        self.with(self.weights.full()).average_of_pixels(Columns {
            left: column_in(source, starts, left, self.rest),
            here: column_in(source, starts, here, self.rest),
            right: column_in(source, starts, right, self.rest),
        })
    }
}

// Three rows, one above the other.
#[derive(Clone, Copy)]
pub struct ThreeRows<'a, T> {
    pub above: &'a [T],
    pub at: &'a [T],
    pub below: &'a [T],
}

// Where three rows begin in what holds them all.
#[derive(Clone, Copy)]
pub struct Starts {
    pub above: usize,
    pub at: usize,
    pub below: usize,
}

impl Starts {
    // The rows of so many elements that begin there.
    pub fn rows<'a, T>(self, source: &'a [T], size: usize) -> ThreeRows<'a, T>
        requires { Inside (length source.now) self size }
        ensures { (result.above.now ≡ take size (drop self.above source.now)) × (result.at.now ≡ take size (drop self.at source.now)) × (result.below.now ≡ take size (drop self.below source.now)) }
    {
        let above = self.above;
        let at = self.at;
        let below = self.below;
        let above_end = above + size;
        let at_end = at + size;
        let below_end = below + size;
        ThreeRows {
            above: &source[above..above_end],
            at: &source[at..at_end],
            below: &source[below..below_end],
        }
    }
}

// One column of three rows.
#[derive(Clone, Copy)]
struct Column {
    above: u32,
    at: u32,
    below: u32,
}

// What a line holds for a pixel.
fn doubled(pixel: u16) -> u32
    ensures { result ≡ doubled pixel }
{
    2 * (pixel as u32) + 1
}

// A row between its own first and last pixel, each pixel doubled and one more.
pub fn pad(row: &[u16], line: &mut [u32])
    requires { (1 ≤ length row.now) × (length line.old ≡ length row.now + 2) }
    ensures { line.new ≡ padded_of row.now }
{
    let width = row.len();
    line[0] = doubled(row[0]);
    for (i, pixel) in row.iter().enumerate() {
        line[i + 1] = doubled(*pixel);
    }
    line[width + 1] = doubled(row[width - 1]);
}

impl ThreeRows<'_, u32> {
    fn column(self, x: usize) -> Column
        requires { (x < length self.above.now) × (x < length self.at.now) × (x < length self.below.now) }
        ensures { result ≡ column_of self.entry.above.now self.entry.at.now self.entry.below.now x }
    {
        Column {
            above: self.above[x],
            at: self.at[x],
            below: self.below[x],
        }
    }
}

// Three columns side by side.
#[derive(Clone, Copy)]
struct Columns {
    left: Column,
    here: Column,
    right: Column,
}

// A weight times the pixels that weigh so, in two parts.
fn weigh(weight: u32, first: u32, second: u32) -> u64
    requires { (first ≤ 4 * doubled largest_pixel) × (second ≤ 4 * doubled largest_pixel) }
    ensures { (result ≡ weight * (first + second)) × (result < 2 ^ 52) }
{
    (weight as u64) * ((first + second) as u64)
}

// The centre, as often as it counts with a pair.
fn counted(times: u32, pixel: u32) -> u32
    requires { (times ≤ 2) × (pixel ≤ doubled largest_pixel) }
    ensures { (result ≡ times * pixel) × (result ≤ 2 * doubled largest_pixel) }
{
    times * pixel
}

impl Products {
    // What the corners add to a pixel.
    fn corner_sum(self, columns: Columns) -> u64
        requires { Doubled columns.left × Doubled columns.here × Doubled columns.right }
        ensures value { let left = columns.left in let right = columns.right in result ≡ self.diagonal * (left.above + right.below) + self.across * (right.above + left.below) + self.corners * (left.above + right.below + (right.above + left.below)) }
        ensures upper_bound { result < 2 ^ 54 }
    {
        let Columns { left, right, .. } = columns;
        let falling = left.above + right.below;
        let rising = right.above + left.below;
        let diagonal = weigh(self.diagonal, falling, 0);
        let across = weigh(self.across, rising, 0);
        let corners = weigh(self.corners, falling, rising);
        diagonal + across + corners
    }

    // What the sides add, with the centre where it counts with a pair.
    fn side_sum(self, columns: Columns) -> u64
        requires counts { Counts self }
        requires doubled { Doubled columns.left × Doubled columns.here × Doubled columns.right }
        ensures value { let left = columns.left in let here = columns.here in let right = columns.right in result ≡ self.down * (here.above + here.below + self.centre_in_column * here.at) + self.along * (left.at + right.at + self.centre_in_row * here.at) + self.sides * (here.above + here.below + (left.at + right.at + self.centre_in_row * here.at)) }
        ensures upper_bound { result < 2 ^ 54 }
    {
        let Columns { left, here, right } = columns;
        let column = here.above + here.below;
        let row = left.at + right.at + counted(self.centre_in_row, here.at);
        let down = weigh(self.down, column, counted(self.centre_in_column, here.at));
        let along = weigh(self.along, row, 0);
        let sides = weigh(self.sides, column, row);
        down + along + sides
    }
}

impl Recipe {
    // What weight times pixel sums to, around the middle of three columns: pixels, or what lines hold for them.
    fn product_sum(self, columns: Columns) -> u64
        requires { Doubled columns.left × Doubled columns.here × Doubled columns.right }
        ensures { result ≡ weighted (pixel_in columns.left columns.here columns.right) (kernel_of_coefficients self.coefficients).weights }
    {
        let products = self.products;
        let corners = products.corner_sum(columns);
        let sides = products.side_sum(columns);
        let centre = weigh(products.centre, columns.here.at, 0);
        corners + sides + centre
    }

    // One pixel of the next image, from its column and those on its left and right.
    fn average(self, columns: Columns) -> u16
        requires { Doubled columns.left × Doubled columns.here × Doubled columns.right }
        ensures { result ≡ weighted (pixel_in columns.left columns.here columns.right) (kernel_of_coefficients self.coefficients).weights / (2 * (kernel_of_coefficients self.coefficients).sum) }
    {
        self.coefficients.divide(self.product_sum(columns))
    }

    // The row core: one row of the next image from three lines, which have a pixel more on both sides.
    #[inline(always)]
    pub fn smooth_row(self, lines: ThreeRows<u32>, out: &mut [u16])
        requires { Lines lines.above.now lines.at.now lines.below.now (length out.old) }
        ensures { out.new ≡ row_of (kernel_of_coefficients self.coefficients) (length out.old) lines.entry.above.now lines.entry.at.now lines.entry.below.now }
    {
        for (x, pixel) in out.iter_mut().enumerate() {
            *pixel = self.average(Columns {
                left: lines.column(x),
                here: lines.column(x + 1),
                right: lines.column(x + 2),
            });
        }
    }

    // One pixel of the next image, from its column and those on its left and right as they stand.
    fn average_of_pixels(self, columns: Columns) -> u16
        requires { Pixels columns.left × Pixels columns.here × Pixels columns.right }
        ensures { result ≡ average_of (kernel_of_coefficients self.coefficients) columns.left columns.here columns.right }
    {
        self.coefficients
            .divide_to_nearest(self.product_sum(columns))
    }

    // The row core on pixels as they stand: a stretch of the next image, from three rows that have a pixel more on both sides. Of the
    // pixels that are added to each other one is enough that the compiler cannot tell. One loop for this and for lines would be no plainer:
    // it would take a trait that says how a column is read and a sum is divided, with a law for each, and share these few lines.
    #[inline(always)]
    pub fn smooth_stretch(self, rows: ThreeRows<u16>, out: &mut [u16])
        requires { Long (length rows.above.now) (length rows.at.now) (length rows.below.now) (length out.old) }
        ensures { out.new ≡ stretch_of (kernel_of_coefficients self.coefficients) (length out.old) rows.entry.above.now rows.entry.at.now rows.entry.below.now }
    {
        let rest = self.coefficients.rest;
        for (x, pixel) in out.iter_mut().enumerate() {
            *pixel = self.average_of_pixels(Columns {
                left: rows.pixels(x, rest, rest),
                here: rows.pixels(x + 1, rest, 0),
                right: rows.pixels(x + 2, 0, 0),
            });
        }
    }
}

// ---- pixels as they stand

// A pixel, where nothing is left over.
fn standing(pixel: u16, rest: u32) -> u32
    requires { rest ≡ 0 }
    ensures { (result ≡ pixel) × (result ≤ largest_pixel) }
{
    pixel as u32 + rest
}

// A column of three rows where they stand in an image: for single pixels it is plainer than to cut out the three rows first.
fn column_in(source: &[u16], starts: Starts, x: usize, rest: u32) -> Column
    requires { Inside (length source.now) starts (x + 1) × (rest ≡ 0) }
    ensures value { result ≡ column_in source.now starts x }
    ensures pixels { Pixels result }
{
    Column {
        above: standing(source[starts.above + x], rest),
        at: standing(source[starts.at + x], rest),
        below: standing(source[starts.below + x], rest),
    }
}

impl ThreeRows<'_, u16> {
    // One column of three rows of pixels as they stand. What is left over is added, or 0.
    fn pixels(self, x: usize, rest: u32, lower: u32) -> Column
        requires { (x < length self.above.now) × (x < length self.at.now) × (x < length self.below.now) × (rest ≡ 0) × (lower ≡ 0) }
        ensures value { result ≡ column_of self.entry.above.now self.entry.at.now self.entry.below.now x }
        ensures pixels { Pixels result }
    {
        Column {
            above: standing(self.above[x], rest),
            at: standing(self.at[x], rest),
            below: standing(self.below[x], lower),
        }
    }
}

// A row of the next image, from three lines.
impl Maker for ThreeRows<'_, u32> {
    ghost takes = { λ lines pixels. Lines lines.above.now lines.at.now lines.below.now (length pixels) };

    ghost makes = { λ lines k pixels made. made ≡ row_of k (length pixels) lines.above.now lines.at.now lines.below.now };

    #[inline(always)]
    fn make(self, recipe: Recipe, pixels: &mut [u16]) {
        recipe.smooth_row(self, pixels);
    }
}

// A stretch of it, from three rows of pixels as they stand.
impl Maker for ThreeRows<'_, u16> {
    ghost takes = { λ rows pixels. Long (length rows.above.now) (length rows.at.now) (length rows.below.now) (length pixels) };

    ghost makes = { λ rows k pixels made. made ≡ stretch_of k (length pixels) rows.above.now rows.at.now rows.below.now };

    #[inline(always)]
    fn make(self, recipe: Recipe, pixels: &mut [u16]) {
        recipe.smooth_stretch(self, pixels);
    }
}
