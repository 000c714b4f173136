// The engine's calls for C: numbers and byte slices only. Each returns the number of the refusal, 0 for taken, and a refusal leaves every lent
// byte as it was. Every function here is proved, and the crate assumes nothing of its own.
#![tactic(auto)]

ghost use Rattle.std.specs.Prelude.{◌≡◌, ◌+◌, ◌*◌, ◌≤◌, ◌<◌, ℕ, List, length, ltb};
ghost use Rattle.refusals.specs.Refusals.{number};
ghost use Rattle.numbers.specs.Numbers.{put, bytes_of};
ghost use Rattle.message.specs.Words.{ends_limit, terms_most};
ghost use Rattle.radio.specs.Read.{words_most};
ghost use Rattle.state.specs.Refusal.{refuse, after};
ghost use Rattle.monitor.specs.Ask.{wide};
ghost use Rattle.monitor.specs.Messages.{read_number, read_output, rewrite_number, rewrite_output};
ghost use Rattle.monitor.specs.code.Words.{words_in, words_of_message};

use message::Message;
use refusals::Refusal;

pub mod calls;
pub mod questions;
pub mod receive;

// The bytes that reading a message writes.
const READING_SIZE: usize = 32;

// The words of a message's bytes, in the room lent for them; none where the bytes cannot be a message's. What stands in the room behind them is free.
// No Option: no words are refused as too few, as such bytes are to be.
fn take_words<'a>(message: &[u8], room: &'a mut [u32]) -> &'a [u32]
    requires { words_most ≤ length room.old }
    ensures { result.now ≡ words_in message.now }
{
    let size = message.len();
    if (size % 4 != 0) | (radio::BYTES_MOST < size) {
        return &room[..0];
    }
    let n = size / 4;
    numbers::get_words(message, 0, &mut room[..n]);
    &room[..n]
}

// Writes numbers of 8 bytes at the front.
fn put_numbers(out: &mut [u8], numbers: &[u64])
    requires { length numbers.now * 8 ≤ length out.old }
    ensures { out.new ≡ put 0 (wide numbers.now) out.old }
{
    for (i, x) in numbers.iter().enumerate() {
        numbers::put64(out, i * 8, *x);
    }
}

// Reads a message; `monitor_message_read` says what it writes.
fn try_message_read(message: &[u8], reading: &mut [u8]) -> Result<(), Refusal>
    ensures value { number result ≡ read_number message.now reading.old }
    ensures reading_after { reading.new ≡ read_output message.now reading.old }
{
    let mut room = [0u32; radio::WORDS_MOST];
    let told = radio::read::read(take_words(message, &mut room))?;
    if reading.len() < READING_SIZE {
        return Err(Refusal::Buffer);
    }
    let count = told.terms.len() as u64;
    put_numbers(
        reading,
        &[u64::from(told.sender), told.left, told.right, count],
    );
    Ok(())
}

// Reads a message: sender, left, right and term count go to the first 32 bytes of the output.
pub fn monitor_message_read(message: &[u8], reading: &mut [u8]) -> u32
    ensures value { result ≡ read_number message.now reading.old }
    ensures reading_after { reading.new ≡ read_output message.now reading.old }
{
    refusals::number(try_message_read(message, reading))
}

// Writes a message's words at the front of an output, which may be too short.
fn put_message(out: &mut [u8], words: &[u32]) -> Result<(), Refusal>
    requires { length words.now ≤ words_most }
    ensures value { number result ≡ refuse (ltb (length out.old) (length (bytes_of words.now))) 24 0 }
    ensures out_after { out.new ≡ after (number result) (bytes_of words.now) out.old }
{
    if out.len() < words.len() * 4 {
        return Err(Refusal::Buffer);
    }
    numbers::put_words(out, 0, words);
    Ok(())
}

// Rewrites a message; `monitor_message_rewrite` says what it writes.
fn try_message_rewrite(message: &[u8], out: &mut [u8]) -> Result<(), Refusal>
    ensures value { number result ≡ rewrite_number message.now out.old }
    ensures out_after { out.new ≡ rewrite_output message.now out.old }
{
    let mut room = [0u32; radio::WORDS_MOST];
    let mut words = [0u32; radio::WORDS_MOST];
    let told = radio::write::rewrite(take_words(message, &mut room), &mut words)?;
    let size = told.names.len() + told.terms.len() + 6;
    put_message(out, &words[..size])
}

// Writes a message again in ends form, with the sender, epoch words, interval and terms that it has.
pub fn monitor_message_rewrite(message: &[u8], out: &mut [u8]) -> u32
    ensures value { result ≡ rewrite_number message.now out.old }
    ensures out_after { out.new ≡ rewrite_output message.now out.old }
{
    refusals::number(try_message_rewrite(message, out))
}
