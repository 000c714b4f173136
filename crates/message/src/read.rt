// Reading: a function for each test of document 01, in its order 10, 12, 11, 13 to 17.
ghost use Rattle.std.specs.Prelude.{◌≡◌, ◌+◌, ◌<◌, ◌≤◌, [], length, slice_index, IfOk};
ghost use Rattle.refusals.specs.Refusals.{number};
ghost use Rattle.message.specs.Words.{payload_size, ends_limit, kind_of, payload, of_kind, check};
ghost use Rattle.message.specs.Read.{width, start, span_kinds, kinds_fit, check_fits, pair, span, is_ends, middle};
ghost use Rattle.message.specs.Read.{opens, shape_refusal, contents, read_plain, term_words};
ghost use Rattle.message.specs.code.Told.{interval_of, form_of, reading_of};

use super::{ENDS_LIMIT, Head, Message, PAYLOAD_SIZE, WORDS_LEAST, WORDS_MOST};
use refusals::Refusal;

// A word's kind: its top 3 bits.
// A kind stays a number: it is three bits of a word, and only compared.
pub fn kind(w: u32) -> u32
    ensures { (result ≡ kind_of w) × (result < 8) }
{
    w / PAYLOAD_SIZE
}

// Its payload: the low 29 bits.
pub fn payload(w: u32) -> u32
    ensures { (result ≡ payload w) × (result < payload_size) }
{
    w % PAYLOAD_SIZE
}

// Whether each word is of kind k.
fn of_kind(words: &[u32], k: u32) -> bool
    ensures { result ≡ of_kind k words.now }
{
    words.iter().fold(true, |ok, w| ok & (kind(*w) == k))
}

// The check word's payload: the sum of the words, wrapping, modulo 2^29.
pub(crate) fn check_of(words: &[u32]) -> u32
    ensures { (result ≡ check words.now) × (result < payload_size) }
{
    words.iter().fold(0u32, |sum, w| sum.wrapping_add(*w)) % PAYLOAD_SIZE
}

// How many words the interval has.
// `ends` is as in the definitions: ends form, or else centre form.
#[tactic(auto, unfolding(crate::specs::Read::width))]
fn width(ends: bool) -> usize
    ensures { (result ≡ width ends) × (3 ≤ result) × (result ≤ 4) }
{
    if ends { 4 } else { 3 }
}

// Whether the words of the interval, which begins at place `at`, are of their kinds.
fn span_kinds(words: &[u32], at: usize, ends: bool) -> bool
    requires { at + 4 ≤ length words.now }
    ensures { result ≡ span_kinds at ends words.now }
{
    let low = at + 2;
    if ends {
        return of_kind(&words[at..low], 2) & of_kind(&words[low..at + 4], 3);
    }
    of_kind(&words[at..low], 4) & of_kind(&words[low..at + 3], 5)
}

// Whether each word from the interval on is of its kind.
fn kinds_fit(words: &[u32], at: usize, ends: bool) -> bool
    requires { (at + 4 ≤ length words.now) × (start at ends + 1 ≤ length words.now) }
    ensures { result ≡ kinds_fit at ends words.now }
{
    let from = at + width(ends);
    let last = words.len() - 1;
    span_kinds(words, at, ends) & (of_kind(&words[from..last], 6) & of_kind(&words[last..], 7))
}

// Whether the last word is the check word of all before it.
#[tactic(auto, unfolding(crate::specs::Read::check_fits))]
fn check_fits(words: &[u32]) -> bool
    requires { 1 ≤ length words.now }
    ensures { result ≡ check_fits words.now }
{
    let last = words.len() - 1;
    payload(words[last]) == check_of(&words[..last])
}

// The number in the words at i and i + 1.
#[tactic(auto, unfolding(crate::specs::Read::pair))]
fn pair(words: &[u32], i: usize) -> u64
    requires { i + 1 < length words.now }
    ensures { (result ≡ pair words.now i) × (result < ends_limit) }
{
    u64::from(payload(words[i])) * u64::from(PAYLOAD_SIZE) + u64::from(payload(words[i + 1]))
}

// An interval of instants, left at most right, both from 0 to 2^58 - 1.
#[derive(Clone, Copy)]
struct Ends {
    left: u64,
    right: u64,
}

// The interval that begins at place `at`.
#[tactic(auto, unfolding(crate::specs::Read::span))]
fn span(words: &[u32], at: usize, ends: bool) -> Option<Ends>
    requires { at + 4 ≤ length words.now }
    ensures { interval_of result ≡ span at ends words.now }
{
    let a = pair(words, at);
    if ends {
        let b = pair(words, at + 2);
        if a <= b {
            return Some(Ends { left: a, right: b });
        }
        return None;
    }
    let half = u64::from(payload(words[at + 2]));
    if half <= a {
        if a + half < ENDS_LIMIT {
            return Some(Ends {
                left: a - half,
                right: a + half,
            });
        }
    }
    None
}

// Whether the word at place `at` opens ends form, or centre form; it may open neither.
#[tactic(auto, unfolding(crate::specs::Read::opens, crate::specs::Read::is_ends))]
fn form(words: &[u32], at: usize) -> Result<bool, Refusal>
    ensures { result ≡ form_of at words.now }
{
    match words.get(at).map(|w| kind(*w)) {
        Some(2) => Ok(true),
        Some(4) => Ok(false),
        _ => Err(Refusal::Form),
    }
}

// The refusals 12, 11, 13 and 14: what can be told without the payloads. The interval begins at place `at`.
pub fn shape(words: &[u32], at: usize) -> Result<(), Refusal>
    requires { (1 ≤ length words.now) × (at ≤ length words.now) }
    ensures { number result ≡ shape_refusal at words.now }
{
    let head = Head { word: words[0] };
    if !head.fits() {
        return Err(Refusal::Head);
    }
    let ends = form(words, at)?;
    if words.len() - 1 - at != width(ends) + head.term_count() {
        return Err(Refusal::Length);
    }
    if !kinds_fit(words, at, ends) {
        return Err(Refusal::Kind);
    }
    Ok(())
}

// The term words of a message of that shape: those between the interval and the last word.
pub fn terms(words: &[u32], at: usize) -> &[u32]
    requires { shape_refusal at words.now ≡ 0 }
    ensures { result.now ≡ middle at (is_ends at words.now) words.now }
{
    let end = words.len() - 1;
    let from = end - Head { word: words[0] }.term_count();
    &words[from..end]
}

// What a message of that shape says, or its refusal by 15, 16 or 17.
pub fn contents(words: &[u32], at: usize) -> Result<Message<'_>, Refusal>
    requires { shape_refusal at words.now ≡ 0 }
    ensures value { reading_of result ≡ contents at words.now }
    ensures parts { IfOk result (λ m. (m.terms.now ≡ middle at (is_ends at words.now) words.now) × (m.names.now ≡ [])) }
{
    if !check_fits(words) {
        return Err(Refusal::Check);
    }
    let ends = kind(words[at]) == 2;
    let Some(interval) = span(words, at, ends) else {
        return Err(Refusal::Interval);
    };
    let terms = terms(words, at);
    if !predicates::is_normal(terms) {
        return Err(Refusal::Terms);
    }
    let head = Head { word: words[0] };
    Ok(Message {
        sender: head.sender(),
        left: interval.left,
        right: interval.right,
        terms,
        names: &words[..0],
    })
}

// The message in the words, or its first refusal.
pub fn read(words: &[u32]) -> Result<Message<'_>, Refusal>
    ensures value { reading_of result ≡ read_plain words.now }
    ensures parts { IfOk result (λ m. (m.terms.now ≡ term_words (read_plain words.now) words.now) × (m.names.now ≡ [])) }
{
    let n = words.len();
    if (n < WORDS_LEAST) | (WORDS_MOST < n) {
        return Err(Refusal::WordCount);
    }
    shape(words, 1)?;
    contents(words, 1)
}
