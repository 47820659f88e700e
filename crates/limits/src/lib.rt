// What every call shares: REFERENCE's limits, the error codes (its refusals), their numbers, and the checks on step
// counts, sides and lengths that several calls make.
#![tactic(auto)]

ghost use Rattle.std.specs.Prelude.{◌≡◌, ◌*◌};
ghost use Rattle.limits.specs.Errors.{number_of, outcome_number};
ghost use Rattle.limits.specs.Limits.{within_of, steps_in_range, side_in_range, sides_in_range, fills_picture, fits_buffer};

// The numbers of specs/Limits; every crate above takes them from here.
const MOST_STEPS: u32 = 64;

pub const LONGEST_SIDE: u32 = 1024;

pub const BUFFER_PIXELS: usize = 1024;

// REFERENCE's fourteen refusals, each with its number; `number_of` gives each the same.
#[derive(Clone, Copy, PartialEq, Eq)]
pub enum ErrorCode {
    TextIsNoJob = 1,
    RecordOutOfOrder = 2,
    VarianceOutOfRange = 3,
    NotADirection = 4,
    StepsOutOfRange = 5,
    SideOutOfRange = 6,
    NoSuchJob = 7,
    StepsAreLeft = 8,
    WrongLength = 9,
    TooManyPixels = 10,
    NoKernel = 11,
    NoFreeBuffers = 12,
    NumbersUsedUp = 13,
    CannotGoBack = 14,
}

impl From<ErrorCode> for u32 {
    ghost from_gives = { λ code number. number ≡ number_of code };

    fn from(code: ErrorCode) -> u32 {
        code as u32
    }
}

// The number of what a call answers where nothing else comes back, REFERENCE's "an answer or one numbered refusal": 0 where
// the call was accepted. A number, since C reads it.
pub fn outcome_number(outcome: Result<(), ErrorCode>) -> u32
    ensures { result ≡ outcome_number outcome }
{
    match outcome {
        Ok(()) => 0,
        Err(code) => u32::from(code),
    }
}

fn within(low: u32, high: u32, n: u32) -> bool
    ensures { result ≡ within_of low high n }
{
    low <= n && n <= high
}

pub fn steps_in_range(steps: u32) -> bool
    ensures { result ≡ steps_in_range steps }
{
    within(1, MOST_STEPS, steps)
}

fn side_in_range(side: u32) -> bool
    ensures { result ≡ side_in_range side }
{
    within(1, LONGEST_SIDE, side)
}

// The sides of an image go as two numbers, as C, the service's record and the formats of texts have them.
pub fn sides_in_range(width: u32, height: u32) -> bool
    ensures { result ≡ sides_in_range width height }
{
    side_in_range(width) && side_in_range(height)
}

// The number of pixels of an image, formed in 64 bits, where it cannot wrap.
pub fn area(width: u32, height: u32) -> usize
    ensures { result ≡ width * height }
{
    width as usize * height as usize
}

pub fn fills_picture(length: usize, width: u32, height: u32) -> bool
    ensures { result ≡ fills_picture length width height }
{
    length == area(width, height)
}

pub fn fits_buffer(width: u32, height: u32) -> bool
    ensures { result ≡ fits_buffer width height }
{
    area(width, height) <= BUFFER_PIXELS
}
