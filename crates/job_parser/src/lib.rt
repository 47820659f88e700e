// Reading a job text: line one, and the lines of pixels, which are put into a lent picture. An inner crate: `read_job` asks for
// a picture that has room for the pixels of every text, only crates of this repository call it, and nothing exports it.
#![tactic(auto)]

ghost use Rattle.std.specs.Prelude.{◌≡◌, ◌*◌, ◌≤◌, length};
ghost use Rattle.std.proofs.Math.Option.{some};
ghost use Rattle.job_printer.specs.Buffers.{written};
ghost use Rattle.job_parser.specs.Formats.{letter_of, longest_of, height_end};
ghost use Rattle.job_parser.specs.Parsing.{read_entries, read_sizes, read_header, parse};
ghost use Rattle.job_parser.specs.Job.{Job};
ghost use Rattle.job_parser.specs.Reading.{read_letter, read_choice, read_row, read_rows};
ghost use Rattle.job_parser.specs.Found.{Reads, Fills, job_of};
ghost use Rattle.job_parser.specs.Pictures.{most_pixels};

use job_printer::field_end;
use kernel::{Choice, Covariance};

mod cursor;

use cursor::Cursor;

// The longest N text and the longest J text (specs/Formats.antt `longest_of`).
pub const LONGEST_TEXT: usize = 16386;

const LONGEST_ARCHIVED_TEXT: usize = 16384;

// As many pixels as such texts can hold: each takes at least a digit and a separator, and line one comes first.
pub const MOST_PIXELS: usize = 8191;

const LARGEST_PIXEL: u32 = u16::MAX as u32;

// The formats of a job text: J, archived, and N, which names the choice.
#[derive(Clone, Copy, PartialEq, Eq)]
pub enum Format {
    J,
    N,
}

// Line one of a job text.
#[derive(Clone, Copy)]
pub struct Header {
    pub covariance: Covariance,
    pub steps: u32,
    pub width: u32,
    pub height: u32,
    pub choice: Choice,
}

// A step count and the sides of a picture.
#[derive(Clone, Copy)]
struct Sizes {
    pub steps: u32,
    pub width: u32,
    pub height: u32,
}

impl Format {
    // What a text begins with.
    pub fn letter(self) -> u8
        ensures { result ≡ letter_of self }
    {
        match self {
            Format::J => b'J',
            Format::N => b'N',
        }
    }

    fn longest(self) -> usize
        ensures { result ≡ longest_of self }
    {
        match self {
            Format::J => LONGEST_ARCHIVED_TEXT,
            Format::N => LONGEST_TEXT,
        }
    }

    // What stands after h.
    fn height_end(self) -> u8
        ensures { result ≡ height_end self }
    {
        match self {
            Format::J => b'\n',
            Format::N => b'\t',
        }
    }
}

impl Cursor<'_> {
    #[tactic(auto, unfolding(crate::specs::Parsing::read_entries))]
    fn covariance(&mut self) -> Option<Covariance>
        ensures { Reads result self.new.rest.now (read_entries self.old.rest.now) }
    {
        let xx = self.signed(b'\t')?;
        let xy = self.signed(b'\t')?;
        let yy = self.signed(b'\t')?;
        Some(Covariance { xx, xy, yy })
    }

    // The byte `end` stands after the height.
    #[tactic(auto, unfolding(crate::specs::Parsing::read_sizes))]
    fn sizes(&mut self, end: u8) -> Option<Sizes>
        ensures { Reads result self.new.rest.now (read_sizes end self.old.rest.now) }
    {
        let steps = self.number(u32::MAX, b'\t')?;
        let width = self.number(u32::MAX, b'\t')?;
        let height = self.number(u32::MAX, end)?;
        Some(Sizes {
            steps,
            width,
            height,
        })
    }

    // s or b.
    #[tactic(auto, unfolding(crate::specs::Reading::read_letter))]
    fn letter(&mut self) -> Option<Choice>
        ensures { Reads result self.new.rest.now (read_letter self.old.rest.now) }
    {
        let (letter, rest) = self.rest.split_first()?;
        let choice = match *letter {
            b's' => Choice::Smallest,
            b'b' => Choice::Binomial,
            _ => return None,
        };
        self.rest = rest;
        Some(choice)
    }

    // A J text names no choice: it has the smallest.
    #[tactic(auto, unfolding(crate::specs::Reading::read_choice))]
    fn choice(&mut self, format: Format) -> Option<Choice>
        ensures { Reads result self.new.rest.now (read_choice format self.old.rest.now) }
    {
        match format {
            Format::J => Some(Choice::Smallest),
            Format::N => {
                let choice = self.letter()?;
                self.byte(b'\n')?;
                Some(choice)
            }
        }
    }

    #[tactic(auto, unfolding(crate::specs::Parsing::read_header))]
    fn header(&mut self, format: Format) -> Option<Header>
        ensures { Reads result self.new.rest.now (read_header format self.old.rest.now) }
    {
        self.byte(format.letter())?;
        self.byte(b'\t')?;
        let covariance = self.covariance()?;
        let Sizes {
            steps,
            width,
            height,
        } = self.sizes(format.height_end())?;
        let choice = self.choice(format)?;
        Some(Header {
            covariance,
            steps,
            width,
            height,
            choice,
        })
    }

    // A line of pixels, as many as are lent.
    fn row(&mut self, pixels: &mut [u16]) -> Option<()>
        ensures { Fills result pixels.new self.new.rest.now (read_row (length pixels.old) self.old.rest.now) }
    {
        let width = pixels.len();
        for (place, pixel) in pixels.iter_mut().enumerate() {
            *pixel = self.number(LARGEST_PIXEL, field_end(width - 1 - place))? as u16;
        }
        Some(())
    }

    // The lines of pixels. Without the first test a text of no pixels could ask for 2 ^ 32 turns. Its lines are found by number, since
    // nothing is known of what stands in a slice that `chunks_exact_mut` lent.
    fn rows(&mut self, width: u32, height: u32, pixels: &mut [u16]) -> Option<()>
        requires { length pixels.old ≡ width * height }
        ensures { Fills result pixels.new self.new.rest.now (read_rows width height self.old.rest.now) }
    {
        if width == 0 {
            return Some(());
        }
        let width = width as usize;
        for row in 0..height as usize {
            self.row(&mut pixels[row * width..(row + 1) * width])?;
        }
        Some(())
    }
}

// A picture with room for the pixels of every text.
pub fn blank_picture() -> [u16; MOST_PIXELS]
    ensures { length result ≡ most_pixels }
{
    [0; MOST_PIXELS]
}

// Line one of the job that a text of a format is, its pixels put into the picture.
pub fn read_job(format: Format, text: &[u8], pixels: &mut [u16]) -> Option<Header>
    requires { most_pixels ≤ length pixels.old }
    ensures value { result ≡ job_of (parse format text.now) }
    ensures pixels_after { (job : Job) → parse format text.now ≡ some job → pixels.new ≡ written pixels.old 0 job.pixels }
{
    if format.longest() < text.len() {
        return None;
    }
    let mut cursor = Cursor { rest: text };
    let header = cursor.header(format)?;
    let size = limits::area(header.width, header.height);
    // No text has room for so many pixels, and the picture may have none.
    if MOST_PIXELS < size {
        return None;
    }
    cursor.rows(header.width, header.height, &mut pixels[..size])?;
    if cursor.rest.is_empty() {
        Some(header)
    } else {
        None
    }
}
