// Holds the crate covariance to 3,000 vectors that the reference program made (`vectors shapes 1 3000`), one on a line of
// standard input: `R` variance, `O` long short cosine sine, or `M` xx xy yy; then the step count, the answer (0 or the number
// of the refusal), the covariance xx xy yy (zeros where the answer is 3 or 4), nine weights and their sum (zeros where it is a
// refusal). Numbers are decimal and parted by one blank; a float is the number that its 64 bits make. Prints how many shapes
// there were, for how many of them the crate answers otherwise, and how many have each answer.
#![tactic(auto)]

ghost use Rattle.std.specs.Prelude.{◌≤◌, ◌≡◌, length};

use covariance::{Direction, Shape};
use kernel::{Covariance, Kernel};
use std::io::Read;
use std::{io, mem};

// What a line tells where the crate refuses: zeros.
const NO_COVARIANCE: Covariance = Covariance {
    xx: 0,
    xy: 0,
    yy: 0,
};

const NO_KERNEL: Kernel = Kernel {
    weights: [0; kernel::WEIGHTS],
    sum: 0,
};

// The kind of a shape, by the letter at the start of its line.
#[derive(Clone, Copy)]
enum Kind {
    Round,
    Oval,
    Matrix,
}

impl From<u8> for Kind {
    fn from(letter: u8) -> Self {
        match letter {
            b'R' => Kind::Round,
            b'O' => Kind::Oval,
            _ => Kind::Matrix,
        }
    }
}

impl Kind {
    // How many numbers tell a shape of the kind.
    fn count(self) -> usize
        ensures { result ≤ 4 }
    {
        match self {
            Kind::Round => 1,
            Kind::Oval => 4,
            Kind::Matrix => 3,
        }
    }
}

// The shape that a kind and its numbers tell, if they are as many as the kind wants.
fn shape_of(kind: Kind, numbers: &[u64]) -> Option<Shape> {
    match (kind, numbers) {
        (Kind::Round, [variance]) => Some(Shape::Round(float_of(*variance))),
        (Kind::Oval, [long, short, cosine, sine]) => {
            let direction = Direction {
                cosine: float_of(*cosine),
                sine: float_of(*sine),
            };
            Some(Shape::Oval(float_of(*long), float_of(*short), direction))
        }
        (Kind::Matrix, [xx, xy, yy]) => {
            Some(Shape::Matrix(signed_of(*xx), signed_of(*xy), signed_of(*yy)))
        }
        _ => None,
    }
}

// The float that the bits make; each NaN is the same one.
#[tactic(auto, using(std::proofs::lemmas::Float::not_nan_f64_bits))]
fn float_of(bits: u64) -> f64 {
    if bits % 0x8000_0000_0000_0000 <= 0x7ff0_0000_0000_0000 {
        f64::from_bits(bits)
    } else {
        f64::NAN
    }
}

// The number that a field holds, or the least one where it does not fit.
fn signed_of(field: u64) -> i32 {
    i32::try_from(field.cast_signed()).unwrap_or(i32::MIN)
}

// The number that is being read: its digits so far, once there is one, and whether a minus was read.
#[derive(Clone, Copy, Default)]
struct Number {
    size: Option<u64>,
    negative: bool,
}

impl Number {
    // A digit more, unless 64 bits have no room for it.
    fn push(&mut self, digit: u8) {
        let size = self.size.unwrap_or(0);
        let tens = size.checked_mul(10);
        self.size = Some(tens.map_or(size, |tens| tens.wrapping_add(u64::from(digit))));
    }

    // A negative number is kept in 64 bits as its complement.
    fn value(self) -> Option<u64> {
        self.size.map(|size| if self.negative {
            size.wrapping_neg()
        } else {
            size
        })
    }
}

// The line that is being read: its fields so far, before the number that is being read. A field that a line is too short for is
// that of an earlier line, so an array and a count stand here for a list that would be emptied with each line.
#[derive(Drop)]
struct Line {
    kind: Kind,
    fields: [u64; 20],
    count: usize,
    number: Number,
    ghost fits: { count ≤ 20 },
}

impl Line {
    // The number that was read, if there is one and room is left, is the next field.
    fn end_field(&mut self) {
        let number = mem::take(&mut self.number);
        if let Some(value) = number.value() {
            if let Some(field) = self.fields.get_mut(self.count) {
                *field = value;
                self.count += 1;
            }
        }
    }

    // The answer that the line tells.
    fn answer(&self) -> u64 {
        self.fields[self.kind.count() + 1]
    }

    // Whether the line is whole, and the crate answers what it tells.
    fn agrees(&self) -> bool {
        let Some((numbers, rest)) = self.fields[..self.count].split_at_checked(self.kind.count())
        else {
            return false;
        };
        let [steps, answer, xx, xy, yy, weights @ .., sum] = rest else {
            return false;
        };
        let Ok(weights) = <[u64; 9]>::try_from(weights) else {
            return false;
        };
        let Some(shape) = shape_of(self.kind, numbers) else {
            return false;
        };
        let covariance = Covariance {
            xx: signed_of(*xx),
            xy: signed_of(*xy),
            yy: signed_of(*yy),
        };
        let kernel = Kernel { weights, sum: *sum };
        let steps = (*steps % 0x1_0000_0000) as u32;
        covariance::covariance_of(shape).unwrap_or(NO_COVARIANCE) == covariance
            && match covariance::kernel_of_shape(shape, steps) {
                Ok(made) => *answer == 0 && made == kernel,
                Err(code) => *answer == u64::from(u32::from(code)) && kernel == NO_KERNEL,
            }
    }
}

// What the lines came to, and the one that is being read.
#[derive(Drop)]
struct Tally {
    line: Line,
    lines: u64,
    wrong: u64,
    answers: [u64; 14],
}

impl Tally {
    fn new() -> Self {
        Tally {
            line: Line {
                kind: Kind::Matrix,
                fields: [0; 20],
                count: 0,
                number: Number::default(),
            },
            lines: 0,
            wrong: 0,
            answers: [0; 14],
        }
    }

    // The line is at its end: it is compared, and a new one begins.
    fn end_line(&mut self) {
        self.line.end_field();
        if let Some(count) = self.answers.get_mut(self.line.answer() as usize) {
            *count = count.wrapping_add(1);
        }
        self.lines = self.lines.wrapping_add(1);
        if !self.line.agrees() {
            self.wrong = self.wrong.wrapping_add(1);
        }
        self.line.kind = Kind::Matrix;
        self.line.count = 0;
    }

    fn push(&mut self, byte: u8) {
        match byte {
            b'\n' => self.end_line(),
            b' ' => self.line.end_field(),
            b'-' => self.line.number.negative = true,
            b'0'..=b'9' => self.line.number.push(byte - b'0'),
            letter => self.line.kind = Kind::from(letter),
        }
    }

    // The input, at most 1024 spaces full of it, to one that stays empty: a terminal gives more after the end of a file.
    fn of(input: &mut impl Read) -> Self {
        let mut tally = Tally::new();
        let mut space = [0u8; 0x1_0000];
        for _ in 0..1024 {
            let size = read_full(input, &mut space);
            if size == 0 {
                break;
            }
            for byte in &space[..size] {
                tally.push(*byte);
            }
        }
        tally
    }

    fn report(&self, rt: &impl Print) -> io::Result<()> {
        let Tally { lines, wrong, .. } = self;
        println!(rt; "shapes\t{lines}")?;
        println!(rt; "wrong\t{wrong}")?;
        for (answer, count) in self.answers.iter().enumerate() {
            if *count != 0 {
                println!(rt; "answer {answer}\t{count}")?;
            }
        }
        Ok(())
    }
}

// Reads until the space is full, the input ends or a read fails, and answers how many bytes it put at the start of the space. A read
// may give less than it was asked for, so the next one goes on behind it: std's methods that read to the end want a heap.
fn read_full(input: &mut impl Read, space: &mut [u8]) -> usize
    ensures { result ≤ length space.new }
{
    let mut done = 0;
    while done < space.len() {
        match input.read(&mut space[done..]) {
            Ok(0) | Err(_) => return done,
            Ok(more) => done += more,
        }
    }
    done
}

fn main(rt: HostRuntime) -> io::Result<()> {
    let mut input = rt.stdin();
    Tally::of(&mut input).report(&rt)
}
