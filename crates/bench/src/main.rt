// The bench program (REFERENCE): reads one job text from standard input and writes its answer to standard output, and nothing
// else. The work is done in job_text; here are the two buffers and the calls that read and write. A text that cannot be read to
// its end is no job. A write that fails goes unnoticed: the program's status is 0 either way.
#![tactic(auto)]

ghost use Rattle.std.specs.Prelude.{◌≡◌, ◌+◌, ◌≤◌, length, take};
ghost use Rattle.job_parser.specs.declared.Format.TheVariants.{N};
ghost use Rattle.job_parser.specs.Formats.{longest_of};
ghost use Rattle.job_text.specs.Answer.{answer_text, most_bytes};
ghost use Rattle.bench.specs.Counts.{IsPrefixLen};

use std::io::Read;

// One byte more than a job text may have, so that a longer text is no job.
const TEXT_BYTES: usize = job_parser::LONGEST_TEXT + 1;

fn text_buffer() -> [u8; TEXT_BYTES]
    ensures { longest_of N + 1 ≡ length result }
{
    [0; TEXT_BYTES]
}

fn answer_buffer() -> [u8; job_text::MOST_BYTES]
    ensures { most_bytes ≡ length result }
{
    [0; job_text::MOST_BYTES]
}

// Puts the text on standard input at the start of the buffer and answers its length. Where a read fails it answers 0, for what
// came before may not be the whole text, and an empty text is no job. No signal interrupts a read: the program handles none. A read
// may give less than it was asked for, so the next one goes on behind it: std's methods that read to the end want a heap.
fn read_text(input: &mut impl Read, text: &mut [u8]) -> usize
    requires { longest_of N + 1 ≡ length text.old }
    ensures { IsPrefixLen result text.new }
{
    let mut done = 0;
    while done < text.len() {
        match input.read(&mut text[done..]) {
            Ok(0) => return done,
            Ok(more) => done += more,
            Err(_) => return 0,
        }
    }
    done
}

// Puts the answer to a text at the start of a buffer that has room for every answer, and answers its length.
fn answer_into(text: &[u8], out: &mut [u8]) -> usize
    requires { most_bytes ≤ length out.old }
    ensures out_after { take result out.new ≡ answer_text text.now }
    ensures prefix_len { IsPrefixLen result out.new }
{
    job_text::answer(text, out).unwrap_or(0)
}

fn main(rt: HostRuntime) {
    let mut text = text_buffer();
    let mut out = answer_buffer();
    let mut input = rt.stdin();
    let read = read_text(&mut input, &mut text);
    let size = answer_into(&text[..read], &mut out);
    let _ = rt.write_all(&out[..size]);
}
