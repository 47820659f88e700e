// Archived job texts: from J to N with the smallest choice, and back. A call writes the whole text in the other format to the lent output,
// or answers refusal 1, 14 or 9 and leaves the output as it was.
#![tactic(auto)]

ghost use Rattle.std.specs.Prelude.{◌≡◌, ◌+◌, ◌≤◌, ◌==◌, length, position, Ok};
ghost use Rattle.limits.specs.Errors.{first_refusal};
ghost use Rattle.job_parser.specs.Formats.{longest_of};
ghost use Rattle.job_converter.specs.Conversion.{line_end, smallest_bytes, converted, length_checks, conversion_checks, conversion, output_after};

use job_parser::Format;
use job_printer::Printer;
use kernel::Choice;
use limits::ErrorCode;

// What names the smallest choice in a format.
fn smallest(format: Format) -> &'static [u8]
    ensures { result.now ≡ smallest_bytes format }
{
    match format {
        Format::J => &[],
        Format::N => b"\ts",
    }
}

// Refusal 9, where the output has another length than a text of so many bytes in the other format.
fn fitting(from: Format, to: Format, text: usize, size: usize) -> Result<(), ErrorCode>
    requires le_text { 2 ≤ text }
    requires text_bound { text ≤ longest_of Format.N }
    ensures { result ≡ first_refusal (length_checks from to text size) }
{
    let wanted = text + smallest(to).len() - smallest(from).len();
    if size != wanted {
        return Err(ErrorCode::WrongLength);
    }
    Ok(())
}

// Refusals 1, 14 and 9, the first that applies, of a text and an output of so many bytes.
fn checked(from: Format, to: Format, text: &[u8], size: usize) -> Result<(), ErrorCode>
    ensures { result ≡ first_refusal (conversion_checks from to text.now size) }
{
    // The reader puts the pixels into a picture, which nobody reads here.
    let mut pixels = job_parser::blank_picture();
    let header = job_parser::read_job(from, text, &mut pixels).ok_or(ErrorCode::TextIsNoJob)?;
    match header.choice {
        Choice::Smallest => fitting(from, to, text.len(), size),
        Choice::Binomial => Err(ErrorCode::CannotGoBack),
    }
}

fn newline_at(text: &[u8]) -> Option<usize>
    ensures { result ≡ position (λ byte. byte == 10) text.now }
{
    text.iter().position(|byte| *byte == b'\n')
}

// Where line one ends.
fn line_end(text: &[u8]) -> usize
    ensures { result ≡ line_end text.now }
{
    newline_at(text).unwrap_or(text.len())
}

// The text in the other format: its letter, line one with or without the choice, and the rest as it is.
fn respell(from: Format, to: Format, text: &[u8], out: &mut [u8])
    requires { first_refusal (conversion_checks from to text.now (length out.old)) ≡ Ok tt }
    ensures { out.new ≡ converted from to text.now }
{
    let end = line_end(text);
    let kept = end - smallest(from).len();
    let mut printer = Printer::new(out);
    printer.bytes(&[to.letter()]);
    printer.bytes(&text[1..kept]);
    printer.bytes(smallest(to));
    printer.bytes(&text[end..]);
}

fn convert(from: Format, to: Format, text: &[u8], out: &mut [u8]) -> Result<(), ErrorCode>
    ensures value { result ≡ conversion from to text.now out.old }
    ensures out_after { out.new ≡ output_after from to text.now out.old }
{
    checked(from, to, text, out.len())?;
    respell(from, to, text, out);
    Ok(())
}

// An archived text, J, as the N text with the smallest choice. Refusals 1, and 9 where the output has not two bytes more.
pub fn j_to_n(text: &[u8], out: &mut [u8]) -> Result<(), ErrorCode>
    ensures value { result ≡ conversion Format.J Format.N text.now out.old }
    ensures out_after { out.new ≡ output_after Format.J Format.N text.now out.old }
{
    convert(Format::J, Format::N, text, out)
}

// An N text with the smallest choice as the archived text, J. Refusals 1, 14 where it names the other choice, and 9 where the output has
// not two bytes less.
pub fn n_to_j(text: &[u8], out: &mut [u8]) -> Result<(), ErrorCode>
    ensures value { result ≡ conversion Format.N Format.J text.now out.old }
    ensures out_after { out.new ≡ output_after Format.N Format.J text.now out.old }
{
    convert(Format::N, Format::J, text, out)
}
