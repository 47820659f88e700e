// The service's calls, exported. What each reads, writes and refuses is said in word_calls.
ghost use Rattle.std.specs.Prelude.{◌≡◌};
ghost use Rattle.limits.specs.Errors.{value_or};
ghost use Rattle.machine.specs.Answers.{answer_number, count_number, count_values};
ghost use Rattle.kernel.specs.Choice.{choice_of};
ghost use Rattle.machine.specs.Rules.{current_rules};
ghost use Rattle.word_calls.specs.Exported.{number_after, Leaves, opening_code, opening_words, submit_words, tick_words, collect_words, withdraw_words, count_words, change_code, change_words};

use covariance::{Direction, Shape};
use limits::ErrorCode;
use machine::Answer;

// Hands out the number of the job that a call answered, 0 for idle; a refusal leaves the number as it was.
fn hand_number(number: &mut u64, answer: Result<Answer, ErrorCode>) -> u32
    ensures code { result ≡ answer_number answer }
    ensures number_after { number.new ≡ number_after answer number.old }
{
    match answer {
        Ok(Answer::Job(job)) => {
            *number = job;
            0
        }
        Ok(Answer::Idle) => {
            *number = 0;
            0
        }
        Err(code) => u32::from(code),
    }
}

// Writes the record of an empty service. 9 where there are not 75 words.
#[unsafe(no_mangle)]
pub extern "C" fn vokhsaot_opening(words: &mut [u64]) -> u32
    ensures value { result ≡ opening_code current_rules words.old }
    ensures words_after { words.new ≡ opening_words current_rules words.old }
{
    limits::outcome_number(word_calls::opening(words))
}

// Submits a job by a choice, whose shape is a covariance matrix in 1/4096 square pixel.
#[unsafe(no_mangle)]
pub extern "C" fn vokhsaot_submit_matrix_by(
    words: &mut [u64],
    store: &mut [u16],
    choice: u32,
    xx: i32,
    xy: i32,
    yy: i32,
    steps: u32,
    width: u32,
    height: u32,
    pixels: &[u16],
    number: &mut u64,
) -> u32
    ensures leaves { Leaves (submit_words current_rules words.old number.old store.old (choice_of choice) (Shape.Matrix xx xy yy) steps width height pixels.now) result words.new number.new }
    ensures store_after { store.new ≡ (submit_words current_rules words.old number.old store.old (choice_of choice) (Shape.Matrix xx xy yy) steps width height pixels.now).store }
{
    let answer = word_calls::submit(
        words,
        store,
        choice,
        Shape::Matrix(xx, xy, yy),
        steps,
        width,
        height,
        pixels,
    );
    hand_number(number, answer)
}

// Submits a job by a choice, whose shape is round, of this variance in square pixels.
#[unsafe(no_mangle)]
pub extern "C" fn vokhsaot_submit_round_by(
    words: &mut [u64],
    store: &mut [u16],
    choice: u32,
    variance: f64,
    steps: u32,
    width: u32,
    height: u32,
    pixels: &[u16],
    number: &mut u64,
) -> u32
    ensures leaves { Leaves (submit_words current_rules words.old number.old store.old (choice_of choice) (Shape.Round variance) steps width height pixels.now) result words.new number.new }
    ensures store_after { store.new ≡ (submit_words current_rules words.old number.old store.old (choice_of choice) (Shape.Round variance) steps width height pixels.now).store }
{
    let answer = word_calls::submit(
        words,
        store,
        choice,
        Shape::Round(variance),
        steps,
        width,
        height,
        pixels,
    );
    hand_number(number, answer)
}

// Submits a job by a choice, whose shape is oval, by its variances along and across a direction.
#[unsafe(no_mangle)]
pub extern "C" fn vokhsaot_submit_oval_by(
    words: &mut [u64],
    store: &mut [u16],
    choice: u32,
    long: f64,
    short: f64,
    cosine: f64,
    sine: f64,
    steps: u32,
    width: u32,
    height: u32,
    pixels: &[u16],
    number: &mut u64,
) -> u32
    ensures leaves { Leaves (submit_words current_rules words.old number.old store.old (choice_of choice) (Shape.Oval long short (record { cosine = cosine; sine = sine })) steps width height pixels.now) result words.new number.new }
    ensures store_after { store.new ≡ (submit_words current_rules words.old number.old store.old (choice_of choice) (Shape.Oval long short (record { cosine = cosine; sine = sine })) steps width height pixels.now).store }
{
    let answer = word_calls::submit(
        words,
        store,
        choice,
        Shape::Oval(long, short, Direction { cosine, sine }),
        steps,
        width,
        height,
        pixels,
    );
    hand_number(number, answer)
}

// One step of one job: writes its number, 0 for idle.
#[unsafe(no_mangle)]
pub extern "C" fn vokhsaot_tick(words: &mut [u64], store: &mut [u16], number: &mut u64) -> u32
    ensures leaves { Leaves (tick_words current_rules words.old number.old store.old) result words.new number.new }
    ensures store_after { store.new ≡ (tick_words current_rules words.old number.old store.old).store }
{
    hand_number(number, word_calls::tick(words, store))
}

// Writes a finished job's picture out and empties its slot; writes its number again.
#[unsafe(no_mangle)]
pub extern "C" fn vokhsaot_collect(
    words: &mut [u64],
    store: &[u16],
    job: u64,
    picture: &mut [u16],
    number: &mut u64,
) -> u32
    ensures leaves { Leaves (collect_words current_rules words.old number.old store.now job picture.old) result words.new number.new }
    ensures picture_after { picture.new ≡ (collect_words current_rules words.old number.old store.now job picture.old).lent }
{
    hand_number(number, word_calls::collect(words, store, job, picture))
}

// Empties a job's slot, finished or not; writes its number again.
#[unsafe(no_mangle)]
pub extern "C" fn vokhsaot_withdraw(words: &mut [u64], job: u64, number: &mut u64) -> u32
    ensures { Leaves (withdraw_words current_rules words.old number.old job) result words.new number.new }
{
    hand_number(number, word_calls::withdraw(words, job))
}

// Writes the number of free buffers.
#[unsafe(no_mangle)]
pub extern "C" fn vokhsaot_free_count(words: &[u64], count: &mut u32) -> u32
    ensures value { result ≡ count_number (count_words current_rules words.now) }
    ensures count_after { count.new ≡ value_or (count_values (count_words current_rules words.now)) count.old }
{
    match word_calls::free_count(words) {
        Ok(buffers) => {
            *count = buffers;
            0
        }
        Err(code) => u32::from(code),
    }
}

// The change-over of a unit while it runs: reads the 67 words of a record from before slots held f, and writes the 75 of the new one.
#[unsafe(no_mangle)]
pub extern "C" fn vokhsaot_change_over(old: &[u64], words: &mut [u64]) -> u32
    ensures value { result ≡ change_code old.now words.old }
    ensures words_after { words.new ≡ change_words old.now words.old }
{
    limits::outcome_number(word_calls::change_over(old, words))
}
