// Reading: what document 02 adds to document 01's reading, which stays in crate `message`. The order is 10, 12, 11, 13, 14, 42, 15 to 17.
ghost use Rattle.std.specs.Prelude.{◌≡◌, ◌≤◌, ◌<◌, length, IfOk};
ghost use Rattle.message.specs.Words.{masks};
ghost use Rattle.message.specs.Read.{shape_refusal, term_words};
ghost use Rattle.message.specs.code.Told.{reading_of};
ghost use Rattle.radio.specs.Names.{wanted, names_fit};
ghost use Rattle.radio.specs.Read.{leading, opening, epoch_words_fit, read_words, epoch_words};

use super::{NAME_LIMIT, WORDS_LEAST, WORDS_MOST};
use message::read::{contents, kind, payload, shape, terms};
use message::{Head, Message};
use refusals::Refusal;

// How many words of kind 0 are at the front.
fn leading(words: &[u32]) -> usize
    ensures { result ≡ leading words.now }
{
    words
        .iter()
        .position(|w| kind(*w) != 0)
        .unwrap_or(words.len())
}

// The place behind the epoch words, which are those of kind 0 next to the head.
fn opening(words: &[u32]) -> usize
    requires { 1 ≤ length words.now }
    ensures { (result ≡ opening words.now) × (result ≤ length words.now) }
{
    1 + leading(&words[1..])
}

// Whether the names are those of the identifiers in the mask, one each, rising: a bit is above all those seen where it is more than their sum.
fn names_fit(names: &[u32], mask: u32) -> bool
    ensures { result ≡ names_fit mask names.now }
{
    let mut seen: u32 = 0;
    for name in names {
        let bit = names::single(*name % 32);
        if !((*name < NAME_LIMIT) & (seen < bit)) {
            return false;
        }
        seen = names::union(seen, bit);
    }
    seen == mask
}

// The sender and the identifiers in the terms.
pub fn wanted(sender: u32, terms: &[u32]) -> u32
    requires { sender < 32 }
    ensures { result ≡ wanted sender (masks terms.now) }
{
    terms.iter().fold(
        names::single(sender),
        |mask, term| names::union(mask, payload(*term)),
    )
}

// Whether the epoch words, which end before place `at`, fit the sender and the terms.
fn epochs_fit(words: &[u32], at: usize) -> bool
    requires { (at ≡ opening words.now) × (shape_refusal at words.now ≡ 0) }
    ensures { result ≡ epoch_words_fit words.now }
{
    let head = Head { word: words[0] };
    names_fit(&words[1..at], wanted(head.sender(), terms(words, at)))
}

// The message in the words, or its first refusal.
pub fn read(words: &[u32]) -> Result<Message<'_>, Refusal>
    ensures value { reading_of result ≡ read_words words.now }
    ensures parts { IfOk result (λ m. (m.terms.now ≡ term_words (read_words words.now) words.now)
        × (m.names.now ≡ epoch_words (read_words words.now) words.now)) }
{
    let n = words.len();
    if (n < WORDS_LEAST) | (WORDS_MOST < n) {
        return Err(Refusal::WordCount);
    }
    let at = opening(words);
    shape(words, at)?;
    if !epochs_fit(words, at) {
        return Err(Refusal::Epochs);
    }
    let message = contents(words, at)?;
    Ok(Message {
        names: &words[1..at],
        ..message
    })
}
