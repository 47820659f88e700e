// The service record as 75 words of 64 bits, for callers that have numbers and slices alone (specs/Words.antt), and the 67 of a record
// from before slots held f. An inner crate: `RecordWords` are words that hold a record.
#![tactic(auto)]

ghost use Rattle.std.specs.Prelude.{◌≡◌, true, false, ◌+◌, ◌^◌, ◌<◌, ◌≤◌, eqb, ltb, length, replicate, Ok, Err, MatchResult, if◌then◌else◌};
ghost use Rattle.std.specs.Int.{w32};
ghost use Rattle.std.proofs.Common.{of_z};
ghost use Rattle.limits.specs.declared.ErrorCode.TheVariants.{RecordOutOfOrder, WrongLength};
ghost use Rattle.machine.specs.Rules.{base_rules, current_rules};
ghost use Rattle.machine.specs.Slots.{slot_count};
ghost use Rattle.machine.specs.Order.{in_order};
ghost use Rattle.machine.specs.Calls.{served_place};
ghost use Rattle.machine.specs.Store.{put};
ghost use Rattle.slots.specs.Numbers.{numbers_of};
ghost use Rattle.record_words.specs.Words.{word_count, slot_words, word_place, word_at, slot_fits, fields_fit, slot_of, service_of, words_of_slot, with_service, with_turn, widened};

use limits::ErrorCode;
use machine::{SLOTS, Service, Slot};
use std::array;

// The words of a record.
pub const WORDS: usize = GIVEN + 3;

// The words of a record from before slots held f.
pub const OLD_WORDS: usize = OLD_GIVEN + 3;

// The words of one slot.
const SLOT_WORDS: usize = 9;

const OLD_SLOT_WORDS: usize = 8;

// Where the last words stand: the last number given, the slot last filled and the slot last served.
const GIVEN: usize = SLOT_WORDS * SLOTS;

const OLD_GIVEN: usize = OLD_SLOT_WORDS * SLOTS;

const SERVED: usize = GIVEN + LAST_SERVED;

// Where a field stands among the words of its slot. The first is the job number.
const XX: usize = 1;

const XY: usize = 2;

const YY: usize = 3;

const STEPS: usize = 4;

const LEFT: usize = 5;

const WIDTH: usize = 6;

const HEIGHT: usize = 7;

const FREE: usize = 8;

// And among the last words, which follow as those of one slot more would.
const LAST_FILLED: usize = 1;

const LAST_SERVED: usize = 2;

// The slots as many as a field of the record counts them.
const PLACES: u32 = SLOTS as u32;

// Whether a word is within 32 bits.
fn narrow(word: u64) -> bool
    ensures { result ≡ ltb word (2 ^ 32) }
{
    u32::try_from(word).is_ok()
}

// Whether the words of a slot are within their fields: each but the job number, which has 64 bits. By `&` and no loop that stops at the first
// that is not: every tick tests all of them, and branches would take longer.
fn slot_fits(words: &[u64], place: usize) -> bool
    requires { (length words.now ≡ word_count current_rules) × (place < slot_count) }
    ensures { result ≡ slot_fits words.now place }
{
    let first = SLOT_WORDS * place;
    narrow(words[first + XX])
        & narrow(words[first + XY])
        & narrow(words[first + YY])
        & narrow(words[first + STEPS])
        & narrow(words[first + LEFT])
        & narrow(words[first + WIDTH])
        & narrow(words[first + HEIGHT])
        & narrow(words[first + FREE])
}

// Whether the words hold a record, in order or not.
fn fields_fit(words: &[u64]) -> bool
    ensures { result ≡ fields_fit current_rules words.now }
{
    if words.len() != WORDS {
        return false;
    }
    let slots_fit = (0..SLOTS).all(|place| slot_fits(words, place));
    slots_fit & narrow(words[GIVEN + LAST_FILLED]) & narrow(words[SERVED])
}

// Words that hold a record, in order or not: they are read as they stand, and a record is made of them only where one is asked for.
#[derive(Clone, Copy)]
pub struct RecordWords<'a> {
    pub words: &'a [u64],
    pub ghost fit: { fields_fit current_rules words.now ≡ true },
}

impl<'a> RecordWords<'a> {
    // Words that hold no record are refused as a record out of order is.
    pub fn new(words: &'a [u64]) -> Result<RecordWords<'a>, ErrorCode>
        ensures { MatchResult result (λ r. r.words.now ≡ words.now) (λ code. (code ≡ RecordOutOfOrder) × (fields_fit current_rules words.now ≡ false)) }
    {
        if !fields_fit(words) {
            return Err(ErrorCode::RecordOutOfOrder);
        }
        Ok(RecordWords { words })
    }
}

impl RecordWords<'_> {
    // A job number, which has 64 bits; behind the slots the last one given.
    #[tactic(auto, using(crate::proofs::Laws::fit_length))]
    fn number(&self, place: usize) -> u64
        requires { place ≤ slot_count }
        ensures { result ≡ word_at current_rules self.now.words.now place 0 }
    {
        self.words[SLOT_WORDS * place]
    }

    // A field of 32 bits.
    #[tactic(auto, using(crate::proofs::Laws::fit_length))]
    fn field(&self, place: usize, field: usize) -> u32
        requires { (1 ≤ field) × (field < slot_words current_rules) × (word_place current_rules place field < word_count current_rules) }
        ensures { result ≡ word_at current_rules self.now.words.now place field }
    {
        self.words[SLOT_WORDS * place + field] as u32
    }

    // The slot that the words hold at a place. A signed number stands as its two's complement.
    #[tactic(auto, unfolding(crate::specs::Words::slot_of))]
    pub fn slot(&self, place: usize) -> Slot
        requires { place < slot_count }
        ensures { result ≡ slot_of current_rules self.now.words.now place }
    {
        Slot {
            number: self.number(place),
            xx: self.field(place, XX).cast_signed(),
            xy: self.field(place, XY).cast_signed(),
            yy: self.field(place, YY).cast_signed(),
            steps: self.field(place, STEPS),
            left: self.field(place, LEFT),
            width: self.field(place, WIDTH),
            height: self.field(place, HEIGHT),
            free: self.field(place, FREE),
        }
    }

    // The record that the words hold.
    pub fn service(&self) -> Service
        ensures { result ≡ service_of current_rules self.now.words.now }
    {
        Service {
            slots: array::from_fn(|place| self.slot(place)),
            last: self.number(SLOTS),
            filled: self.field(SLOTS, LAST_FILLED),
            served: self.field(SLOTS, LAST_SERVED),
        }
    }

    // The numbers of the slots, as they stand in the words.
    fn numbers(&self) -> [u64; SLOTS]
        ensures { result ≡ numbers_of slot_count (service_of current_rules self.now.words.now).slots }
    {
        array::from_fn(|place| self.number(place))
    }

    // Whether the record is in order, by one slot of it after the other: the whole record is not made for it.
    pub fn in_order(&self) -> bool
        ensures { result ≡ in_order current_rules (service_of current_rules self.now.words.now) }
    {
        let numbers = self.numbers();
        let last = self.number(SLOTS);
        let orderly = (0..SLOTS).all(|place| slots::slot_fine(
            last,
            &numbers[..place],
            &self.slot(place),
        ));
        let filled = self.field(SLOTS, LAST_FILLED);
        let served = self.field(SLOTS, LAST_SERVED);
        orderly & (filled < PLACES) & (served < PLACES)
    }

    // The slot whose turn it is: of each slot the steps left alone are read, which `slots::find_with_steps_left` would ask a whole slot for.
    pub fn find_left(&self) -> Option<usize>
        requires { in_order current_rules (service_of current_rules self.now.words.now) ≡ true }
        ensures { result ≡ served_place current_rules (service_of current_rules self.now.words.now) }
    {
        let mut place = slots::next_place(self.field(SLOTS, LAST_SERVED) as usize);
        for _ in 0..SLOTS {
            if 0 < self.field(place, LEFT) {
                return Some(place);
            }
            place = slots::next_place(place);
        }
        None
    }
}

// A signed number as its two's complement, in 32 bits.
fn signed_word(v: i32) -> u64
    ensures { result ≡ of_z w32 v }
{
    u64::from(v.cast_unsigned())
}

// A slot's nine words.
fn slot_words(slot: &Slot) -> [u64; SLOT_WORDS]
    ensures { result ≡ words_of_slot current_rules slot.now }
{
    [
        slot.number,
        signed_word(slot.xx),
        signed_word(slot.xy),
        signed_word(slot.yy),
        u64::from(slot.steps),
        u64::from(slot.left),
        u64::from(slot.width),
        u64::from(slot.height),
        u64::from(slot.free),
    ]
}

fn put_words(words: &mut [u64], start: usize, numbers: &[u64])
    requires { start + length numbers.now ≤ length words.old }
    ensures { words.new ≡ put start numbers.now words.old }
{
    words[start..start + numbers.len()].copy_from_slice(numbers);
}

// The words of a record: each of them is written.
#[tactic(auto, using(crate::proofs::Laws::slots_written_none, crate::proofs::Laws::slots_written_more))]
pub fn write_service(words: &mut [u64], service: &Service)
    requires { length words.old ≡ word_count current_rules }
    ensures { words.new ≡ with_service current_rules service.now words.old }
{
    for (place, slot) in service.slots.iter().enumerate() {
        put_words(words, SLOT_WORDS * place, &slot_words(slot));
    }
    let rest = [
        service.last,
        u64::from(service.filled),
        u64::from(service.served),
    ];
    put_words(words, GIVEN, &rest);
}

// The same for words of which there may be any number: refusal 9 where there are not 75, and then none is written.
pub fn try_write_service(words: &mut [u64], service: &Service) -> Result<(), ErrorCode>
    ensures value { result ≡ (if eqb (length words.old) (word_count current_rules) then Ok tt else Err WrongLength) }
    ensures words_after { words.new ≡ (if eqb (length words.old) (word_count current_rules) then with_service current_rules service.now words.old else words.old) }
{
    let count = words.len();
    if count != WORDS {
        return Err(ErrorCode::WrongLength);
    }
    write_service(words, service);
    Ok(())
}

// The words after a tick, of which two change: the steps left of the slot that was served, and the slot last served.
pub fn write_turn(words: &mut [u64], place: usize, left: u32)
    requires { (length words.old ≡ word_count current_rules) × (place < slot_count) }
    ensures { words.new ≡ with_turn current_rules place left words.old }
{
    words[SLOT_WORDS * place + LEFT] = u64::from(left);
    words[SERVED] = place as u64;
}

// A record of no words yet: by itself, so that the proofs of its callers have its name and not its 75 entries.
fn no_words() -> [u64; WORDS]
    ensures { result ≡ replicate (word_count current_rules) 0 }
{
    [0u64; WORDS]
}

// The words of a record from before slots held f, in the places of this library's: each f is 0. Slots go by number, as the definition
// has them (`widened`).
#[tactic(auto, using(crate::proofs::Widened::widened_none, crate::proofs::Widened::widened_more))]
pub fn widen(old: &[u64; OLD_WORDS]) -> [u64; WORDS]
    ensures { result ≡ widened old.now }
{
    let mut words = no_words();
    for place in 0..SLOTS {
        let from = OLD_SLOT_WORDS * place;
        put_words(
            &mut words,
            SLOT_WORDS * place,
            &old[from..from + OLD_SLOT_WORDS],
        );
    }
    put_words(&mut words, GIVEN, &old[OLD_GIVEN..]);
    words
}
