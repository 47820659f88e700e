// The buffer pool in code (REFERENCE: the store): copies into it and out of it, a step from one of its places to
// another, and of a slot's picture. An inner crate: its functions ask of their callers that the places lie inside.
#![tactic(auto)]

ghost use Rattle.std.specs.Prelude.{◌≡◌, ◌+◌, ◌*◌, ◌<◌, ◌≤◌, length};
ghost use Rattle.averaging.specs.Steps.{step_of};
ghost use Rattle.row_core.specs.Prepared.{StepKernel, kernel_of_coefficients};
ghost use Rattle.machine.specs.Rules.{current_rules};
ghost use Rattle.machine.specs.Slots.{slot_count};
ghost use Rattle.machine.specs.Store.{part, put, buffer_after, steps_done};
ghost use Rattle.machine.specs.Calls.{next_image};
ghost use Rattle.buffers.specs.Places.{Between, Ready};

use kernel::Kernel;
use machine::{BUFFERS_PER_SLOT, Slot};
use row_core::Coefficients;

// By a loop: the library's `copy_from_slice` calls memmove, and C's linkers are promised that memcpy and memset are all.
fn copy(source: &[u16], target: &mut [u16])
    requires { length source.now ≡ length target.old }
    ensures { target.new ≡ source.now }
{
    for (place, pixel) in source.iter().enumerate() {
        target[place] = *pixel;
    }
}

// The pixels, put into the store from a place on: the definitions put a picture at a place, `put`, and take it from one, `part`.
pub fn copy_in(store: &mut [u16], start: usize, pixels: &[u16])
    requires { start + length pixels.now ≤ length store.old }
    ensures { store.new ≡ put start pixels.now store.old }
{
    copy(pixels, &mut store[start..start + pixels.len()]);
}

// As many pixels of the store as the other slice has, from a place on.
pub fn copy_out(store: &[u16], start: usize, pixels: &mut [u16])
    requires { start + length pixels.old ≤ length store.now }
    ensures { pixels.new ≡ part start (length pixels.old) store.now }
{
    copy(&store[start..start + pixels.len()], pixels);
}

// One step of the picture at one place of the store, to another place, by way of lines that have room for all of it.
fn step_loaded(
    store: &mut [u16],
    lines: &mut [u32],
    from: usize,
    to: usize,
    width: usize,
    height: usize,
    coefficients: Coefficients,
)
    requires between { Between (length store.old) from to width height }
    requires width_in_bounds { height * (width + 2) ≤ length lines.old }
    ensures { store.new ≡ put to (step_of (kernel_of_coefficients coefficients) width height (part from (width * height) store.old)) store.old }
{
    let pixels = width * height;
    let from_end = from + pixels;
    let to_end = to + pixels;
    stepping::load_all(&store[from..from_end], lines, width, height);
    stepping::step_all(lines, &mut store[to..to_end], width, height, coefficients);
}

// One step of the picture at one place of the store, to another place. Two parts of one slice cannot be lent at once, so the
// picture is loaded whole before a pixel is written.
pub fn step_between(
    store: &mut [u16],
    from: usize,
    to: usize,
    width: usize,
    height: usize,
    kernel: Kernel,
)
    requires step_kernel { StepKernel kernel }
    requires between { Between (length store.old) from to width height }
    ensures { store.new ≡ put to (step_of kernel width height (part from (width * height) store.old)) store.old }
{
    let coefficients = row_core::coefficients_of(kernel);
    if stepping::line_room(width, height) <= stepping::SMALL_LINES {
        let mut lines = stepping::blank_small_lines();
        step_loaded(store, &mut lines, from, to, width, height, coefficients);
    } else {
        let mut lines = stepping::blank_lines();
        step_loaded(store, &mut lines, from, to, width, height, coefficients);
    }
}

// The buffers of a slot as many as places are counted.
const BUFFERS_OF_SLOT: usize = BUFFERS_PER_SLOT as usize;

// The place where the picture of a slot stands after so many steps: each step goes to the slot's other buffer.
pub fn buffer_after(place: usize, done: usize) -> usize
    requires { place < slot_count }
    ensures { result ≡ buffer_after current_rules place done }
{
    limits::BUFFER_PIXELS * (BUFFERS_OF_SLOT * place + done % BUFFERS_OF_SLOT)
}

// One step of the picture of a slot, from its buffer to the slot's other one, by the free number that the slot holds.
pub fn step_slot(store: &mut [u16], slot: &Slot, place: usize)
    requires { Ready (length store.old) slot.now place }
    ensures { store.new ≡ put (buffer_after current_rules place (steps_done slot.now + 1)) (next_image current_rules store.old place slot.now) store.old }
{
    // A filled slot has a kernel: nothing is left out.
    let Ok(kernel) = kernel::kernel_at(slot.covariance(), slot.free, slot.steps) else {
        return;
    };
    let done = (slot.steps - slot.left) as usize;
    let from = buffer_after(place, done);
    let to = buffer_after(place, done + 1);
    step_between(
        store,
        from,
        to,
        slot.width as usize,
        slot.height as usize,
        kernel,
    );
}
