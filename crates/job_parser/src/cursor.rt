// Reading a text field by field, from its front on: each method passes what it reads and gives its value, or None where no such
// field stands there, and then nobody reads on.
ghost use Rattle.std.specs.Prelude.{◌≡◌, ◌≤◌, IfSome};
ghost use Rattle.job_parser.specs.Reading.{read_byte, read_digits, read_number, read_negative, read_signed};
ghost use Rattle.job_parser.specs.Found.{Reads};

// The sizes of signed 32-bit numbers.
const MOST_POSITIVE: u32 = i32::MAX as u32;

const MOST_NEGATIVE: u32 = MOST_POSITIVE + 1;

// What is left of a text.
#[derive(Drop)]
pub struct Cursor<'a> {
    pub rest: &'a [u8],
}

impl Cursor<'_> {
    #[tactic(auto, unfolding(crate::specs::Reading::read_byte))]
    pub fn byte(&mut self, wanted: u8) -> Option<()>
        ensures { Reads result self.new.rest.now (read_byte wanted self.old.rest.now) }
    {
        let (byte, rest) = self.rest.split_first()?;
        if *byte != wanted {
            return None;
        }
        self.rest = rest;
        Some(())
    }

    #[tactic(auto, unfolding(crate::specs::Reading::read_digits))]
    fn digits(&mut self, limit: u32, end: u8) -> Option<u32>
        ensures value { Reads result self.new.rest.now (read_digits limit end 0 self.old.rest.now) }
        ensures small { IfSome result (λ n. n ≤ limit) }
    {
        let text = self.rest;
        let mut value = 0u32;
        for (place, byte) in text.iter().enumerate() {
            if *byte == end {
                self.rest = &text[place + 1..];
                return Some(value);
            }
            if !byte.is_ascii_digit() {
                return None;
            }
            let next = u64::from(value) * 10 + u64::from(*byte - b'0');
            if u64::from(limit) < next {
                return None;
            }
            value = next as u32;
        }
        None
    }

    // A number of at most `limit` and the byte `end` after it.
    #[tactic(auto, unfolding(crate::specs::Reading::read_number))]
    pub fn number(&mut self, limit: u32, end: u8) -> Option<u32>
        ensures value { Reads result self.new.rest.now (read_number limit end self.old.rest.now) }
        ensures small { IfSome result (λ n. n ≤ limit) }
    {
        let (first, rest) = self.rest.split_first()?;
        if *first == b'0' {
            self.rest = rest;
            self.byte(end)?;
            return Some(0);
        }
        if *first == end {
            return None;
        }
        self.digits(limit, end)
    }

    // What follows a minus, which is not 0.
    #[tactic(auto, unfolding(crate::specs::Reading::read_negative))]
    fn negative_number(&mut self, end: u8) -> Option<i32>
        ensures { Reads result self.new.rest.now (read_negative end self.old.rest.now) }
    {
        let size = self.number(MOST_NEGATIVE, end)?;
        if size == 0 {
            return None;
        }
        0i32.checked_sub_unsigned(size)
    }

    // A signed 32-bit number and the byte `end` after it.
    #[tactic(auto, unfolding(crate::specs::Reading::read_signed))]
    pub fn signed(&mut self, end: u8) -> Option<i32>
        ensures { Reads result self.new.rest.now (read_signed end self.old.rest.now) }
    {
        let (first, rest) = self.rest.split_first()?;
        if *first == b'-' {
            self.rest = rest;
            return self.negative_number(end);
        }
        let size = self.number(MOST_POSITIVE, end)?;
        i32::try_from(size).ok()
    }
}
