// A line of the listing: read, carried out on the state bytes, and answered (document 01, "A listing, complete").
// Every function here is proved, and the crate assumes nothing of its own.
#![tactic(auto)]

ghost use Rattle.std.specs.Prelude.{◌≡◌, ◌≤◌, length};
ghost use Rattle.numbers.specs.Numbers.{put};
ghost use Rattle.lines.specs.code.Sizes.{answer_most};
ghost use Rattle.lines.specs.code.Outcomes.{Prints};
ghost use Rattle.lines.specs.Lines.{LineResult, line_result};

use std::num::TryFromIntError;

mod commands;
mod text;

// A line has at most these bytes, without its line feed.
pub const LINE_MOST: usize = 600;

// So many fields have room in a line: each has a byte, and a space before the next.
const VALUES_MOST: usize = LINE_MOST / 2 + 1;

// No answer is longer, with its line feed.
pub const ANSWER_MOST: usize = 64;

// A line that is no command.
#[derive(Clone, Copy, Debug, PartialEq, Eq)]
struct BadLine;

// A number that is no word.
impl From<TryFromIntError> for BadLine {
    fn from(_error: TryFromIntError) -> BadLine {
        BadLine
    }
}

// Carries a line out, its bytes without the line feed, and writes the answer with its line feed at the front of `out`; answers how many bytes it has.
// `begun` says whether a `set` was taken by now, and the state is that of the last one.
pub fn answer(line: &[u8], state: &mut [u8], begun: &mut bool, out: &mut [u8]) -> usize
    requires { answer_most ≤ length out.old }
    ensures { (let answer : LineResult = line_result line.now begun.old state.old in
        (begun.new ≡ answer.begun) × (result ≡ length answer.text) × (state.new ≡ answer.state)
        × (out.new ≡ put 0 answer.text out.old)) }
{
    match carry_out(line, state, begun, out) {
        Ok(size) => size,
        Err(BadLine) => text::put_bad(out),
    }
}

// The same, but a bad line prints nothing.
fn carry_out(
    line: &[u8],
    state: &mut [u8],
    begun: &mut bool,
    out: &mut [u8],
) -> Result<usize, BadLine>
    requires { answer_most ≤ length out.old }
    ensures { (let answer : LineResult = line_result line.now begun.old state.old in
        (begun.new ≡ answer.begun) × (state.new ≡ answer.state) × Prints answer result out.old out.new) }
{
    if LINE_MOST < line.len() {
        return Err(BadLine);
    }
    let end = fields::read::field_end(line, 0);
    let mut values = [0u64; VALUES_MOST];
    let Some(n) = fields::read::numbers_behind(line, end, &mut values) else {
        return Err(BadLine);
    };
    commands::word_line(&line[..end], &values[..n], state, begun, out)
}
