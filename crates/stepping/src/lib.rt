// One smoothing step, a row at a time. An inner crate: its functions take a kernel or have a `requires`, only crates of this
// repository call them, and nothing exports them.
//
// Between two lent slices the rows of the source pass through three line buffers, from which the row core makes the rows of the
// target. A small image can be loaded whole, so that its target may stand in the slice that it was read from.
//
// Which products a kernel needs is asked where the rows are made (`step_row`, `step_all`), and for each answer the compiler makes a
// loop of its own. A small image asks once for all rows, since its rows are short.
#![tactic(auto)]

ghost use Rattle.std.specs.Prelude.{◌≡◌, List, ℕ, ◌+◌, ◌-◌, ◌*◌, ◌^◌, ◌<◌, ◌≤◌, min, length};
ghost use Rattle.std.proofs.Math.Seq.{paste};
ghost use Rattle.limits.specs.Limits.{longest_side};
ghost use Rattle.averaging.specs.Steps.{step_of};
ghost use Rattle.row_core.specs.Prepared.{StepKernel, kernel_of_coefficients};
ghost use Rattle.row_core.specs.Rows.{part, padded_of};
ghost use Rattle.row_core.specs.declared.Starts.{Starts};
ghost use Rattle.stepping.specs.Step.{PicturePair};
ghost use Rattle.stepping.specs.Buffers.{row_from, Loadable, WindowInside, Loaded, Turn, WindowHolds};
ghost use Rattle.stepping.specs.Whole.{small_lines, Loads, HoldsRows, Readable};

use kernel::Kernel;
use row_core::{Coefficients, Maker, Recipe, Starts};

// Room for three lines, each of 1024 pixels and one more on both sides.
pub const LINES: usize = 3 * (limits::LONGEST_SIDE as usize + 2);

// Room for all lines of a small image: 1024 pixels, as many as a buffer holds, in at most 64 rows. Fewer numbers take less time
// to clear.
pub const SMALL_LINES: usize = limits::BUFFER_PIXELS + 2 * 64;

// A row further down, where the lines of the rows above, at and below it stand in the line buffers: the line of the row above
// comes free for the row to come.
fn down(window: Starts) -> Starts
    ensures { (result.above ≡ window.at) × (result.at ≡ window.below) × (result.below ≡ window.above) }
{
    Starts {
        above: window.at,
        at: window.below,
        below: window.above,
    }
}

// A row further down of an image that is loaded whole: below its last row stands the row itself.
fn next_down(window: Starts, size: usize, last: usize) -> Starts
    requires { window.below + size < 2 ^ 64 }
    ensures { (result.above ≡ window.at) × (result.at ≡ window.below) × (result.below ≡ min (window.below + size) last) }
{
    let at = window.below;
    Starts {
        above: window.at,
        at,
        below: last.min(at + size),
    }
}

// At the last row, which has itself below it.
fn bottom(window: Starts) -> Starts
    ensures { (result.above ≡ window.above) × (result.at ≡ window.at) × (result.below ≡ window.at) }
{
    Starts {
        below: window.at,
        ..window
    }
}

// The row of the source at an index, padded, into the line at another.
fn load_line(source: &[u16], lines: &mut [u32], row: usize, line: usize, width: usize)
    requires { Loadable (length source.now) (length lines.old) row line width }
    ensures { lines.new ≡ paste lines.old line (padded_of (part row width source.now)) (width + 2) }
{
    let row_end = row + width;
    let line_end = line + (width + 2);
    row_core::pad(&source[row..row_end], &mut lines[line..line_end]);
}

// The row of the target at an index, from the lines of a window.
#[inline(always)]
fn step_row_with(
    recipe: Recipe,
    lines: &[u32],
    window: Starts,
    target: &mut [u16],
    row: usize,
    width: usize,
)
    requires { WindowInside lines.now window (length target.old) row width }
    ensures { target.new ≡ paste target.old row (row_from (kernel_of_coefficients recipe.coefficients) width window lines.now) width }
{
    let row_end = row + width;
    recipe.smooth_row(window.rows(lines, width + 2), &mut target[row..row_end]);
}

// The same by the products that the kernel needs.
fn step_row(
    lines: &[u32],
    window: Starts,
    target: &mut [u16],
    row: usize,
    width: usize,
    coefficients: Coefficients,
)
    requires { WindowInside lines.now window (length target.old) row width }
    ensures { target.new ≡ paste target.old row (row_from (kernel_of_coefficients coefficients) width window lines.now) width }
{
    let row_end = row + width;
    coefficients.make(&mut target[row..row_end], window.rows(lines, width + 2));
}

// The first row of the source, into the lines above and at: above it stands the row itself.
fn load_first(source: &[u16], lines: &mut [u32], width: usize) -> Starts
    requires { (1 ≤ width) × (width ≤ length source.now) × (3 * (width + 2) ≤ length lines.old) }
    ensures { Loaded lines.new result width (part 0 width source.now) (part 0 width source.now) }
{
    let at = width + 2;
    let below = at + at;
    load_line(source, lines, 0, 0, width);
    load_line(source, lines, 0, at, width);
    Starts {
        above: 0,
        at,
        below,
    }
}

// Loads the row below a row of the source, into the line that no row needs any more, and answers the window around the row. The
// last row has itself below it.
fn load_below(source: &[u16], lines: &mut [u32], window: Starts, row: usize, width: usize) -> Starts
    requires { Turn source.now lines.old window row width }
    ensures window_holds { WindowHolds lines.new result width (part window.above (width + 2) lines.old) (padded_of (part row width source.now)) (padded_of (part (min (row + width) (length source.now - width)) width source.now)) }
    ensures lines_len_unchanged { (length lines.new ≡ length lines.old) × (row + width < length source.now → (v : Starts) → (v.above ≡ window.at) × (v.at ≡ window.below) × (v.below ≡ window.above) → Loaded lines.new v width (part row width source.now) (part (row + width) width source.now)) }
{
    let next = row + width;
    if next < source.len() {
        let free = window.below;
        load_line(source, lines, next, free, width);
        window
    } else {
        bottom(window)
    }
}

pub fn blank_lines() -> [u32; LINES]
    ensures { length result ≡ 3 * (longest_side + 2) }
{
    [0; LINES]
}

pub fn blank_small_lines() -> [u32; SMALL_LINES]
    ensures { length result ≡ small_lines }
{
    [0; SMALL_LINES]
}

// Every row of the source, padded, into lines one after the other.
pub fn load_all(source: &[u16], lines: &mut [u32], width: usize, height: usize)
    requires { Loads (length source.now) (length lines.old) width height }
    ensures { HoldsRows lines.new width height source.now }
{
    let size = width + 2;
    for done in 0..height {
        load_line(source, lines, done * width, done * size, width);
    }
}

// All rows of an image, each in its line, one after the other.
#[derive(Clone, Copy)]
struct AllLines<'a> {
    lines: &'a [u32],
    width: usize,
    height: usize,
}

// The next image, a row at a time. It goes wherever it is called, as the row core does, so that each kind of kernel has its loop.
impl Maker for AllLines<'_> {
    ghost takes = { λ all pixels. Readable all.lines.now (length pixels) all.width all.height };

    ghost makes = { λ all k pixels made. (source : List ℕ) → length source ≡ all.width * all.height → HoldsRows all.lines.now all.width all.height source → made ≡ step_of k all.width all.height source };

    #[inline(always)]
    fn make(self, recipe: Recipe, target: &mut [u16]) {
        let width = self.width;
        let height = self.height;
        let size = width + 2;
        let last = (height - 1) * size;
        let first = Starts {
            above: 0,
            at: 0,
            below: 0,
        };
        let mut window = next_down(first, size, last);
        for y in 0..height {
            step_row_with(recipe, self.lines, window, target, y * width, width);
            window = next_down(window, size, last);
        }
    }
}

// One step of an image whose rows were loaded, by the products that the kernel needs.
pub fn step_all(
    lines: &[u32],
    target: &mut [u16],
    width: usize,
    height: usize,
    coefficients: Coefficients,
)
    requires readable { Readable lines.now (length target.old) width height }
    ensures { (source : List ℕ) → length source ≡ width * height → HoldsRows lines.now width height source → target.new ≡ step_of (kernel_of_coefficients coefficients) width height source }
{
    let all = AllLines {
        lines,
        width,
        height,
    };
    coefficients.make(target, all);
}

// The room that the lines of an image take.
pub fn line_room(width: usize, height: usize) -> usize
    requires { (1 ≤ width) × (3 * (width * height) < 2 ^ 64) × (width + 2 < 2 ^ 64) }
    ensures { result ≡ height * (width + 2) }
{
    height * (width + 2)
}

// What a step between two images goes by.
#[derive(Clone, Copy)]
struct Plan {
    coefficients: Coefficients,
    width: usize,
    height: usize,
    ghost sides: { PicturePair (width * height) (width * height) width height },
}

impl Plan {
    // One step through line buffers, a row at a time.
    fn step_through(self, source: &[u16], target: &mut [u16], lines: &mut [u32])
        requires pictures { (length source.now ≡ self.width * self.height) × (length target.old ≡ self.width * self.height) }
        requires width_in_bounds { 3 * (self.width + 2) ≤ length lines.old }
        ensures { target.new ≡ step_of (kernel_of_coefficients self.coefficients) self.width self.height source.now }
    {
        let width = self.width;
        let mut window = load_first(source, lines, width);
        for y in 0..self.height {
            let row = y * width;
            let around = load_below(source, lines, window, row, width);
            step_row(lines, around, target, row, width, self.coefficients);
            window = down(window);
        }
    }

    // One step of an image that the lines have room for.
    fn step_whole(self, source: &[u16], target: &mut [u16], lines: &mut [u32])
        requires pictures { (length source.now ≡ self.width * self.height) × (length target.old ≡ self.width * self.height) }
        requires width_in_bounds { self.height * (self.width + 2) ≤ length lines.old }
        ensures { target.new ≡ step_of (kernel_of_coefficients self.coefficients) self.width self.height source.now }
    {
        load_all(source, lines, self.width, self.height);
        step_all(lines, target, self.width, self.height, self.coefficients);
    }

    // One step of a small image, which is loaded whole.
    fn step_small(self, source: &[u16], target: &mut [u16])
        requires pictures { (length source.now ≡ self.width * self.height) × (length target.old ≡ self.width * self.height) }
        requires width_bound { self.height * (self.width + 2) ≤ small_lines }
        ensures { target.new ≡ step_of (kernel_of_coefficients self.coefficients) self.width self.height source.now }
    {
        let mut lines = blank_small_lines();
        self.step_whole(source, target, &mut lines);
    }

    // One step of an image of any size: loaded whole where the lines have room, which is faster than row by row.
    fn step_large(self, source: &[u16], target: &mut [u16])
        requires { (length source.now ≡ self.width * self.height) × (length target.old ≡ self.width * self.height) }
        ensures { target.new ≡ step_of (kernel_of_coefficients self.coefficients) self.width self.height source.now }
    {
        let mut lines = blank_lines();
        if line_room(self.width, self.height) <= LINES {
            self.step_whole(source, target, &mut lines);
        } else {
            self.step_through(source, target, &mut lines);
        }
    }
}

// One step: the next image, whole.
pub fn step(source: &[u16], target: &mut [u16], width: usize, height: usize, kernel: Kernel)
    requires step_kernel { StepKernel kernel }
    requires picture_pair { PicturePair (length source.now) (length target.old) width height }
    ensures { target.new ≡ step_of kernel width height source.now }
{
    let plan = Plan {
        coefficients: row_core::coefficients_of(kernel),
        width,
        height,
    };
    if line_room(width, height) <= SMALL_LINES {
        plan.step_small(source, target);
    } else {
        plan.step_large(source, target);
    }
}
