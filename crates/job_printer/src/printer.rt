// A lent buffer that text is printed into, one part after another. What stands elsewhere in the buffer is kept.
ghost use Rattle.std.specs.Prelude.{◌≡◌, ℕ, [], ◌∷◌, ◌++◌, map, ◌*◌, ◌<◌, length};
ghost use Rattle.job_printer.specs.Numerals.{numeral};
ghost use Rattle.job_printer.specs.Fields.{separator, line, row_lines};
ghost use Rattle.job_printer.specs.Buffers.{HasRoom, Printed};

// How many digits the numeral of a number has: 0 has one, as 1 has.
fn count_digits(n: u64) -> usize
    ensures { result ≡ length (numeral n) }
{
    n.max(1).ilog10() as usize + 1
}

// What ends a field that so many follow on its line: "parted by one tab, lines end with a newline".
pub fn field_end(left: usize) -> u8
    ensures { result ≡ separator left }
{
    if left == 0 { b'\n' } else { b'\t' }
}

// What a field shows: a weight or a pixel.
pub(crate) trait Number: Copy {
    ghost value: { Self → ℕ };

    fn value(self) -> u64
        ensures { result ≡ value self };
}

impl Number for u64 {
    ghost value = { λ n. n };

    fn value(self) -> u64 {
        self
    }
}

impl Number for u16 {
    ghost value = { λ n. n };

    fn value(self) -> u64 {
        u64::from(self)
    }
}

// The lent buffer, and the place that the next byte comes to.
#[derive(Drop)]
pub struct Printer<'a> {
    out: &'a mut [u8],
    at: usize,
}

impl<'a> Printer<'a> {
    pub fn new(out: &'a mut [u8]) -> Printer<'a>
        ensures same_buffer { result.out.ghost_name ≡ out.entry.ghost_name }
        ensures out_after { result.out.now ≡ out.old }
        ensures at_start { result.at ≡ 0 }
    {
        Printer { out, at: 0 }
    }

    // How many bytes were printed.
    pub fn printed(&self) -> usize
        ensures { result ≡ self.now.at }
    {
        self.at
    }

    fn byte(&mut self, byte: u8)
        requires { HasRoom self.old (byte ∷ []) }
        ensures { Printed self.old (byte ∷ []) self.new }
    {
        self.out[self.at] = byte;
        self.at += 1;
    }

    // One by one: the library's `copy_from_slice` calls memmove, and C's linkers are promised that memcpy and memset are all.
    pub fn bytes(&mut self, bytes: &[u8])
        requires { HasRoom self.old bytes.now }
        ensures { Printed self.old bytes.now self.new }
    {
        for byte in bytes {
            self.byte(*byte);
        }
    }

    fn number(&mut self, n: u64)
        requires { HasRoom self.old (numeral n) }
        ensures { Printed self.old (numeral n) self.new }
    {
        let end = self.at + count_digits(n);
        let mut rest = n;
        for place in (self.at..end).rev() {
            self.out[place] = b'0' + (rest % 10) as u8;
            rest /= 10;
        }
        self.at = end;
    }

    // A number and the byte that ends its field.
    pub(crate) fn field(&mut self, n: u64, end: u8)
        requires { HasRoom self.old (numeral n ++ end ∷ []) }
        ensures { Printed self.old (numeral n ++ end ∷ []) self.new }
    {
        self.number(n);
        self.byte(end);
    }

    // The fields of a line.
    pub(crate) fn line<N: Number>(&mut self, numbers: &[N])
        requires { HasRoom self.old (line (map (λ n. numeral (N.value n)) numbers.now)) }
        ensures { Printed self.old (line (map (λ n. numeral (N.value n)) numbers.now)) self.new }
    {
        for (place, number) in numbers.iter().enumerate() {
            self.field(number.value(), field_end(numbers.len() - 1 - place));
        }
    }

    // The lines of a picture, found by number: `chunks_exact` takes no width of 0, which is one here, with no lines.
    pub(crate) fn rows(&mut self, pixels: &[u16], width: u32, height: u32)
        requires len { length pixels.now ≡ width * height }
        requires room { HasRoom self.old (row_lines width height pixels.now) }
        ensures { Printed self.old (row_lines width height pixels.now) self.new }
    {
        let width = width as usize;
        for row in 0..height as usize {
            self.line(&pixels[row * width..(row + 1) * width]);
        }
    }
}
