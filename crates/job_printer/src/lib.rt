// Printing a refusal, a kernel and a picture as lines of text into a lent buffer. An inner crate: its functions take a kernel or have
// a `requires`, only crates of this repository call them, and nothing exports them.
#![tactic(auto)]

ghost use Rattle.std.specs.Prelude.{◌≡◌, ◌*◌, ◌<◌, length};
ghost use Rattle.job_printer.specs.Buffers.{HasRoom, Printed};
ghost use Rattle.job_printer.specs.Lines.{refusal_text, kernel_text, picture_text};

use kernel::Kernel;
use limits::ErrorCode;

mod divisor;
mod printer;

pub use printer::{Printer, field_end};

impl Printer<'_> {
    pub fn refusal(&mut self, code: ErrorCode)
        requires { HasRoom self.old (refusal_text code) }
        ensures { Printed self.old (refusal_text code) self.new }
    {
        self.bytes(b"R\t");
        self.field(u64::from(u32::from(code)), b'\n');
    }

    // The line with a kernel's sum and its weights.
    pub fn kernel(&mut self, kernel: Kernel)
        requires sum_nonzero { 0 < kernel.sum }
        requires room { HasRoom self.old (kernel_text kernel) }
        ensures { Printed self.old (kernel_text kernel) self.new }
    {
        let kernel = divisor::reduced(kernel);
        self.bytes(b"K\t");
        self.field(kernel.sum, b'\t');
        self.line(&kernel.weights);
    }

    // The line with the sides, and the lines of pixels.
    pub fn picture(&mut self, pixels: &[u16], width: u32, height: u32)
        requires len { length pixels.now ≡ width * height }
        requires room { HasRoom self.old (picture_text width height pixels.now) }
        ensures { Printed self.old (picture_text width height pixels.now) self.new }
    {
        self.bytes(b"P\t");
        self.field(u64::from(width), b'\t');
        self.field(u64::from(height), b'\n');
        self.rows(pixels, width, height);
    }
}
