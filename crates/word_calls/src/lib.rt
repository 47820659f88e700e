// The service's calls for callers that have numbers and slices alone. A refusal changes nothing. The service record passes as 75 words of
// 64 bits, which no call trusts: words that hold no record are refused with 2, as a record out of order is.
#![tactic(auto)]

ghost use Rattle.std.specs.Prelude.{◌≡◌, ℕ, length, Ok};
ghost use Rattle.limits.specs.Errors.{outcome_number};
ghost use Rattle.machine.specs.Answers.{answer_number};
ghost use Rattle.kernel.specs.Choice.{choice_of};
ghost use Rattle.machine.specs.Rules.{current_rules};
ghost use Rattle.record_words.specs.Words.{word_count};
ghost use Rattle.word_calls.specs.Exported.{number_after, words_after, Leaves, opening_code, opening_words, submit_words, tick_words, collect_words, withdraw_words, count_words, change_word_checks, change_words};

use covariance::Shape;
use kernel::Choice;
use limits::ErrorCode;
use machine::{Answer, STORE_PIXELS, Service};
use record_words::RecordWords;

// What a call answered, handed out: the words of its record are written where it is a job.
fn hand_out(words: &mut [u64], service: &Service, answer: Answer) -> Result<Answer, ErrorCode>
    requires { length words.old ≡ word_count current_rules }
    ensures value { result ≡ Ok answer }
    ensures words_after { words.new ≡ words_after current_rules (Ok answer) service.now words.old }
{
    if let Answer::Job(_) = answer {
        record_words::write_service(words, service);
    }
    Ok(answer)
}

// Writes the record of an empty service. 9 where there are not 75 words.
pub fn opening(words: &mut [u64]) -> Result<(), ErrorCode>
    ensures value { outcome_number result ≡ opening_code current_rules words.old }
    ensures words_after { words.new ≡ opening_words current_rules words.old }
{
    record_words::try_write_service(words, &service::opening())
}

// Submits a job by the choice that a number names. `lent`, here and below, is whatever stands where the exported call writes the job's number.
pub fn submit(
    words: &mut [u64],
    store: &mut [u16],
    choice: u32,
    shape: Shape,
    steps: u32,
    width: u32,
    height: u32,
    pixels: &[u16],
) -> Result<Answer, ErrorCode>
    ensures { (lent : ℕ) → let left = submit_words current_rules words.old lent store.old (choice_of choice) shape steps width height pixels.now in Leaves left (answer_number result) words.new (number_after result lent) × (store.new ≡ left.store) }
{
    let mut service = RecordWords::new(words)?.service();
    let named = Choice::from(choice);
    let answer = service::submit_by(
        &mut service,
        store,
        named,
        shape,
        steps,
        width,
        height,
        pixels,
    )?;
    hand_out(words, &service, answer)
}

// One step of one job. The words are read as they stand and two of them are written: a tick makes no record.
pub fn tick(words: &mut [u64], store: &mut [u16]) -> Result<Answer, ErrorCode>
    ensures { (lent : ℕ) → let left = tick_words current_rules words.old lent store.old in Leaves left (answer_number result) words.new (number_after result lent) × (store.new ≡ left.store) }
{
    let held = RecordWords::new(words)?;
    if !held.in_order() || store.len() != STORE_PIXELS {
        return Err(ErrorCode::RecordOutOfOrder);
    }
    let Some(place) = held.find_left() else {
        return Ok(Answer::Idle);
    };
    let slot = held.slot(place);
    buffers::step_slot(store, &slot, place);
    record_words::write_turn(words, place, slot.left - 1);
    Ok(Answer::Job(slot.number))
}

// Writes a finished job's picture out and empties its slot.
pub fn collect(
    words: &mut [u64],
    store: &[u16],
    job: u64,
    picture: &mut [u16],
) -> Result<Answer, ErrorCode>
    ensures { (lent : ℕ) → let left = collect_words current_rules words.old lent store.now job picture.old in Leaves left (answer_number result) words.new (number_after result lent) × (picture.new ≡ left.lent) }
{
    let mut service = RecordWords::new(words)?.service();
    let answer = service::collect(&mut service, store, job, picture)?;
    hand_out(words, &service, answer)
}

// Empties a job's slot, finished or not.
pub fn withdraw(words: &mut [u64], job: u64) -> Result<Answer, ErrorCode>
    ensures { (lent : ℕ) → Leaves (withdraw_words current_rules words.old lent job) (answer_number result) words.new (number_after result lent) }
{
    let mut service = RecordWords::new(words)?.service();
    let answer = service::withdraw(&mut service, job)?;
    hand_out(words, &service, answer)
}

// The number of free buffers.
pub fn free_count(words: &[u64]) -> Result<u32, ErrorCode>
    ensures { result ≡ count_words current_rules words.now }
{
    service::free_count(&RecordWords::new(words)?.service())
}

// The change-over of a unit while it runs: reads the 67 words of a record from before slots held f, and writes the 75 of the new one.
pub fn change_over(old: &[u64], words: &mut [u64]) -> Result<(), ErrorCode>
    ensures value { result ≡ change_word_checks old.now (length words.old) }
    ensures words_after { words.new ≡ change_words old.now words.old }
{
    let Ok(old) = <&[u64; record_words::OLD_WORDS]>::try_from(old) else {
        return Err(ErrorCode::RecordOutOfOrder);
    };
    let widened = record_words::widen(old);
    let changed = service::changed_over(RecordWords::new(&widened)?.service())?;
    record_words::try_write_service(words, &changed)
}
