// The five commands over the numbers of their fields. Each writes its line at the front of the output and answers how many bytes it has; a bad line
// changes nothing.
ghost use Rattle.std.specs.Prelude.{◌≡◌, ◌≤◌, length};
ghost use Rattle.lines.specs.Lines.{LineResult, set_line, age_line, get_line, ask_line, fewest_line, word_line};
ghost use Rattle.lines.specs.code.Commands.{Names, needs_set};
ghost use Rattle.lines.specs.code.Outcomes.{Prints};
ghost use Rattle.lines.specs.code.Sizes.{values_most, answer_most};

use crate::{BadLine, VALUES_MOST, text};
use fields::read;

// The message of a `get` line has at most these bytes: four for each field behind the two delays.
const MESSAGE_MOST: usize = (VALUES_MOST - 2) * 4;

// What a line asks for.
#[derive(Clone, Copy, Debug, PartialEq, Eq)]
enum Command {
    Set,
    Age,
    Get,
    Ask,
    Fewest,
}

impl TryFrom<&[u8]> for Command {
    type Error = BadLine;

    ghost try_from_gives = { Names };

    fn try_from(word: &[u8]) -> Result<Command, BadLine> {
        if word == b"set".as_slice() {
            Ok(Command::Set)
        } else if word == b"age".as_slice() {
            Ok(Command::Age)
        } else if word == b"get".as_slice() {
            Ok(Command::Get)
        } else if word == b"ask".as_slice() {
            Ok(Command::Ask)
        } else if word == b"fewest".as_slice() {
            Ok(Command::Fewest)
        } else {
            Err(BadLine)
        }
    }
}

impl Command {
    // Whether a `set` has to be taken before.
    fn needs_set(self) -> bool
        ensures { result ≡ needs_set self }
    {
        self != Command::Set
    }
}

// `set` own drift reading epoch.
fn set_line(
    values: &[u64],
    state: &mut [u8],
    begun: &mut bool,
    out: &mut [u8],
) -> Result<usize, BadLine>
    requires { answer_most ≤ length out.old }
    ensures { (let answer : LineResult = set_line values.now begun.old state.old in
        (begun.new ≡ answer.begun) × (state.new ≡ answer.state) × Prints answer result out.old out.new) }
{
    let &[own, drift, reading, epoch] = values else {
        return Err(BadLine);
    };
    let own = u32::try_from(own)?;
    let drift = u32::try_from(drift)?;
    let number = monitor::calls::monitor_set_up(state, own, drift, reading, epoch);
    *begun |= number == 0;
    Ok(text::put_number(out, number))
}

// `age` reading.
fn age_line(values: &[u64], state: &mut [u8], out: &mut [u8]) -> Result<usize, BadLine>
    requires { answer_most ≤ length out.old }
    ensures { (let answer : LineResult = age_line values.now state.old in
        (state.new ≡ answer.state) × Prints answer result out.old out.new) }
{
    let &[reading] = values else {
        return Err(BadLine);
    };
    let number = monitor::calls::monitor_age(state, reading);
    Ok(text::put_number(out, number))
}

// `get` least greatest words: the words as bytes are the message.
fn get_line(values: &[u64], state: &mut [u8], out: &mut [u8]) -> Result<usize, BadLine>
    requires { (length values.now ≤ values_most) × (answer_most ≤ length out.old) }
    ensures { (let answer : LineResult = get_line values.now state.old in
        (state.new ≡ answer.state) × Prints answer result out.old out.new) }
{
    let [least, greatest, words @ ..] = values else {
        return Err(BadLine);
    };
    if !read::words_fit(words) {
        return Err(BadLine);
    }
    let mut message = [0u8; MESSAGE_MOST];
    read::message_bytes(words, &mut message);
    let size = words.len() * 4;
    let number = monitor::receive::monitor_receive(state, *least, *greatest, &message[..size]);
    Ok(text::put_number(out, number))
}

// `ask` limit.
fn ask_line(values: &[u64], state: &[u8], out: &mut [u8]) -> Result<usize, BadLine>
    requires { answer_most ≤ length out.old }
    ensures { Prints (ask_line values.now state.now) result out.old out.new }
{
    let &[limit] = values else {
        return Err(BadLine);
    };
    let mut answer = [0u8; monitor::questions::ANSWER_SIZE];
    let number = monitor::questions::monitor_ask(state, limit, &mut answer);
    if number != 0 {
        return Ok(text::put_number(out, number));
    }
    Ok(text::put_answer(out, &answer))
}

// `fewest`.
fn fewest_line(values: &[u64], state: &[u8], out: &mut [u8]) -> Result<usize, BadLine>
    requires { answer_most ≤ length out.old }
    ensures { Prints (fewest_line values.now state.now) result out.old out.new }
{
    if !values.is_empty() {
        return Err(BadLine);
    }
    let mut answer = [0u8; monitor::questions::FEWEST_SIZE];
    let number = monitor::questions::monitor_fewest(state, &mut answer);
    if number != 0 {
        return Ok(text::put_number(out, number));
    }
    Ok(text::put_fewest(out, &answer))
}

// A command word with the numbers of its fields; each but `set` needs a taken `set` before it.
pub fn word_line(
    word: &[u8],
    values: &[u64],
    state: &mut [u8],
    begun: &mut bool,
    out: &mut [u8],
) -> Result<usize, BadLine>
    requires { (length values.now ≤ values_most) × (answer_most ≤ length out.old) }
    ensures { (let answer : LineResult = word_line word.now values.now begun.old state.old in
        (begun.new ≡ answer.begun) × (state.new ≡ answer.state) × Prints answer result out.old out.new) }
{
    let command = Command::try_from(word)?;
    if command.needs_set() && !*begun {
        return Err(BadLine);
    }
    match command {
        Command::Set => set_line(values, state, begun, out),
        Command::Age => age_line(values, state, out),
        Command::Get => get_line(values, state, out),
        Command::Ask => ask_line(values, state, out),
        Command::Fewest => fewest_line(values, state, out),
    }
}
