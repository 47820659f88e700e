// The bench program's work: a job text in, the kernel and the smoothed picture or a refusal out, as text. job_parser reads the
// job, job_printer writes the answer, and the job runs between two pictures of this library's own.
#![tactic(auto)]

ghost use Rattle.std.specs.Prelude.{◌≡◌, ◌*◌, ◌≤◌, length};
ghost use Rattle.limits.specs.Errors.{first_refusal, answer_with};
ghost use Rattle.smoothing.specs.Runs.{run_of};
ghost use Rattle.job_printer.specs.Buffers.{HasRoom, Printed};
ghost use Rattle.job_parser.specs.Pictures.{most_pixels};
ghost use Rattle.job_text.specs.Answer.{job_checks, job_kernel, job_answer, answer_text, most_bytes, answered};
ghost use Rattle.job_text.specs.Shape.{shape_of};

use covariance::Shape;
use job_parser::{Format, Header};
use job_printer::Printer;
use kernel::{Covariance, Kernel};
use limits::ErrorCode;

// As many bytes as an answer can have (specs/Answer.antt `most_bytes`).
pub const MOST_BYTES: usize = 49240;

fn shape_of(header: Header) -> Shape
    ensures { result ≡ shape_of header }
{
    let Covariance { xx, xy, yy } = header.covariance;
    Shape::Matrix(xx, xy, yy)
}

// Runs a job between the two pictures, and gives its kernel.
fn run(header: Header, first: &mut [u16], second: &mut [u16]) -> Result<Kernel, ErrorCode>
    requires first_len { length first.old ≡ header.width * header.height }
    requires second_len { length second.old ≡ header.width * header.height }
    ensures value { result ≡ answer_with (first_refusal (job_checks header)) (job_kernel header) }
    ensures first_after { first.new ≡ (run_of header.choice (shape_of header) header.steps header.width header.height first.old second.old).first }
    ensures second_after { second.new ≡ (run_of header.choice (shape_of header) header.steps header.width header.height first.old second.old).second }
{
    let Header {
        covariance,
        steps,
        width,
        height,
        choice,
    } = header;
    let shape = shape_of(header);
    smoothing::run_by(choice, shape, steps, width, height, first, second)?;
    kernel::kernel_by(choice, covariance, steps)
}

// A job whose pixels the first picture holds.
fn print_job(printer: &mut Printer<'_>, header: Header, first: &mut [u16], second: &mut [u16])
    requires first_len { length first.old ≡ header.width * header.height }
    requires second_len { length second.old ≡ header.width * header.height }
    requires room { HasRoom printer.old (job_answer header first.old) }
    ensures { Printed printer.old (job_answer header first.old) printer.new }
{
    let Header {
        steps,
        width,
        height,
        ..
    } = header;
    match run(header, first, second) {
        Ok(kernel) => {
            let shape = shape_of(header);
            let pixels = smoothing::shown(shape, steps, width, height, first, second);
            printer.kernel(kernel);
            printer.picture(pixels, width, height);
        }
        Err(code) => printer.refusal(code),
    }
}

// The answer to a text, in a buffer that has room for it, by a run between the starts of two pictures.
fn print_answer(printer: &mut Printer<'_>, text: &[u8], first: &mut [u16], second: &mut [u16])
    requires room { HasRoom printer.old (answer_text text.now) }
    requires room_in_first { most_pixels ≤ length first.old }
    requires room_in_second { most_pixels ≤ length second.old }
    ensures { Printed printer.old (answer_text text.now) printer.new }
{
    match job_parser::read_job(Format::N, text, first) {
        Some(header) => {
            let size = limits::area(header.width, header.height);
            print_job(printer, header, &mut first[..size], &mut second[..size])
        }
        None => printer.refusal(ErrorCode::TextIsNoJob),
    }
}

// The answer to a job text, put at the start of the lent buffer, and its length; or refusal 9 where that is shorter than an answer can
// be.
pub fn answer(text: &[u8], out: &mut [u8]) -> Result<usize, ErrorCode>
    ensures value { result ≡ (answered text.now out.old).answer }
    ensures out_after { out.new ≡ (answered text.now out.old).out }
{
    if out.len() < MOST_BYTES {
        return Err(ErrorCode::WrongLength);
    }
    let mut first = job_parser::blank_picture();
    let mut second = job_parser::blank_picture();
    let mut printer = Printer::new(out);
    print_answer(&mut printer, text, &mut first, &mut second);
    Ok(printer.printed())
}
