// Asking and the fewest failures, for C.
ghost use Rattle.std.specs.Prelude.{◌≡◌};
ghost use Rattle.refusals.specs.Refusals.{number};
ghost use Rattle.asking.specs.Asking.{answer_numbers};
ghost use Rattle.asking.specs.Fewest.{fewest_of, fewest_numbers};
ghost use Rattle.monitor.specs.Ask.{ask_number, ask_output, fewest_number, fewest_output};

use asking::Answer;
use refusals::Refusal;
use state::sound::InForm;

// The greatest limit, and the bytes that an answer and the fewest failures take.
pub const LIMIT_MOST: u64 = 4;

pub const ANSWER_SIZE: usize = 24;

pub const FEWEST_SIZE: usize = 16;

// The numbers of an answer: 0 contradicted, 1 open, 2 between; left; right.
#[tactic(auto, unfolding(asking::specs::Asking::answer_numbers))]
fn answer_numbers(got: Answer) -> [u64; 3]
    ensures { result ≡ answer_numbers got }
{
    match got {
        Answer::Contradicted => [0, 0, 0],
        Answer::Open => [1, 0, 0],
        Answer::Between(left, right) => [2, left, right],
    }
}

// The numbers of the fewest failures, these names: their count and mask; 5 and 0 where there are more than 4.
#[tactic(auto, unfolding(asking::specs::Fewest::fewest_numbers))]
fn fewest_numbers(got: Option<u32>) -> [u64; 2]
    ensures { result ≡ fewest_numbers (fewest_of got) }
{
    match got {
        Some(names) => [u64::from(names::count(names)), u64::from(names)],
        None => [5, 0],
    }
}

// Asks a state that may be out of form; `monitor_ask` says more.
fn try_ask(state: &[u8], limit: u64, answer: &mut [u8]) -> Result<(), Refusal>
    ensures value { number result ≡ ask_number state.now limit answer.old }
    ensures answer_after { answer.new ≡ ask_output state.now limit answer.old }
{
    state::form::check(state)?;
    if LIMIT_MOST < limit {
        return Err(Refusal::Limit);
    }
    if answer.len() < ANSWER_SIZE {
        return Err(Refusal::Buffer);
    }
    let got = asking::ask::ask(InForm { bytes: state }, limit as u32);
    super::put_numbers(answer, &answer_numbers(got));
    Ok(())
}

// Asks at a limit of failed names: 24 bytes of answer. Answers 0, or 24, 25, 22 or 24 for the output.
pub fn monitor_ask(state: &[u8], limit: u64, answer: &mut [u8]) -> u32
    ensures value { result ≡ ask_number state.now limit answer.old }
    ensures answer_after { answer.new ≡ ask_output state.now limit answer.old }
{
    refusals::number(try_ask(state, limit, answer))
}

// The fewest failures of a state that may be out of form; `monitor_fewest` says more.
fn try_fewest(state: &[u8], answer: &mut [u8]) -> Result<(), Refusal>
    ensures value { number result ≡ fewest_number state.now answer.old }
    ensures answer_after { answer.new ≡ fewest_output state.now answer.old }
{
    state::form::check(state)?;
    if answer.len() < FEWEST_SIZE {
        return Err(Refusal::Buffer);
    }
    let got = fewest::fewest_failures(InForm { bytes: state });
    super::put_numbers(answer, &fewest_numbers(got));
    Ok(())
}

// The fewest failures that explain the state: 16 bytes of answer. Answers 0, or 24, 25 or 24 for the output.
pub fn monitor_fewest(state: &[u8], answer: &mut [u8]) -> u32
    ensures value { result ≡ fewest_number state.now answer.old }
    ensures answer_after { answer.new ≡ fewest_output state.now answer.old }
{
    refusals::number(try_fewest(state, answer))
}
