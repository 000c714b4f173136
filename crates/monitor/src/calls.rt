// The calls that set a monitor up, age it and write a held datum as a message: each tests the length of the state first, and the last two its form.
ghost use Rattle.std.specs.Prelude.{◌≡◌, ◌≤◌, ◌<◌, length};
ghost use Rattle.refusals.specs.Refusals.{number};
ghost use Rattle.numbers.specs.Numbers.{put};
ghost use Rattle.radio.specs.Read.{words_most};
ghost use Rattle.state.specs.Layout.{data_most, held_count};
ghost use Rattle.engine.specs.Calls.{setup};
ghost use Rattle.monitor.specs.Calls.{set_up_number, set_up_state, age_number, age_state, written_words, write_number, write_output};

use message::Message;
use refusals::Refusal;
use state::sound::InForm;

// Sets a monitor up in a buffer that may be too short; `monitor_set_up` says more.
fn try_set_up(
    state: &mut [u8],
    own: u32,
    drift: u32,
    reading: u64,
    epoch: u64,
) -> Result<(), Refusal>
    ensures value { number result ≡ set_up_number state.old (setup own drift reading epoch) }
    ensures state_after { state.new ≡ set_up_state state.old (setup own drift reading epoch) }
{
    if state.len() < state::STATE_SIZE {
        return Err(Refusal::Buffer);
    }
    engine::set_up::set_up(state, own, drift, reading, epoch)
}

// Sets a monitor up: own identifier, drift in parts per million, a reading of the own clock, and the own epoch. Answers 0, or 24, 1, 41, 2 or 3.
pub fn monitor_set_up(state: &mut [u8], own: u32, drift: u32, reading: u64, epoch: u64) -> u32
    ensures value { result ≡ set_up_number state.old (setup own drift reading epoch) }
    ensures state_after { state.new ≡ set_up_state state.old (setup own drift reading epoch) }
{
    refusals::number(try_set_up(state, own, drift, reading, epoch))
}

// Ages a state that may be out of form; `monitor_age` says more.
fn try_age(state: &mut [u8], reading: u64) -> Result<(), Refusal>
    ensures value { number result ≡ age_number state.old reading }
    ensures state_after { state.new ≡ age_state state.old reading }
{
    state::form::check(state)?;
    engine::ageing::age(state, reading)
}

// Ages the state to a reading of the own clock. Answers 0, or 24, 25, 3, 20 or 30.
pub fn monitor_age(state: &mut [u8], reading: u64) -> u32
    ensures value { result ≡ age_number state.old reading }
    ensures state_after { state.new ≡ age_state state.old reading }
{
    refusals::number(try_age(state, reading))
}

// Writes the words of the held datum at a position, under the epochs known, to the front of `words` and answers how many.
fn datum_words(state: InForm<'_>, position: usize, words: &mut [u32]) -> usize
    requires { (position < held_count state.bytes.now) × (position < data_most) × (words_most ≤ length words.old) }
    ensures value { (result ≡ length (written_words state.entry.bytes.now position)) × (result ≤ words_most) }
    ensures words_after { words.new ≡ put 0 (written_words state.entry.bytes.now position) words.old }
{
    let state = state.bytes;
    let own = state::own(state);
    let datum = state::store::get_datum(state, position);
    let right = ends::round_up(datum.ends.right);
    let terms = datum.terms();
    let mask = radio::read::wanted(own, terms);
    let mut names = [0u32; epochs::EPOCHS_MOST];
    let given = radio::write::known_names(state, state::EPOCHS_AT, mask, &mut names);
    let said = Message {
        sender: own,
        left: datum.ends.left.whole,
        right,
        terms,
        names: &names[..given],
    };
    message::write::write(words, &said);
    given + terms.len() + 6
}

// Writes a held datum of a state that may be out of form; `monitor_write` says more.
fn try_write(state: &[u8], position: u64, message: &mut [u8]) -> Result<(), Refusal>
    ensures value { number result ≡ write_number state.now position message.old }
    ensures message_after { message.new ≡ write_output state.now position message.old }
{
    state::form::check(state)?;
    let sound = InForm { bytes: state };
    let held = state::held(state);
    if held as u64 <= position {
        return Err(Refusal::Position);
    }
    let mut words = [0u32; radio::WORDS_MOST];
    let n = datum_words(sound, position as usize, &mut words);
    if message.len() < n * 4 {
        return Err(Refusal::Buffer);
    }
    numbers::put_words(message, 0, &words[..n]);
    Ok(())
}

// Writes the held datum at a position, 0 being the oldest, as a message from the own name. Answers 0, or 24, 25, 23 or 24 for the output.
pub fn monitor_write(state: &[u8], position: u64, message: &mut [u8]) -> u32
    ensures value { result ≡ write_number state.now position message.old }
    ensures message_after { message.new ≡ write_output state.now position message.old }
{
    refusals::number(try_write(state, position, message))
}
