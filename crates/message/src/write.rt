// Writing in ends form.
ghost use Rattle.std.specs.Prelude.{◌≡◌, ◌+◌, ◌/◌, ◌%◌, ◌<◌, ◌≤◌, [], ◌∷◌, map, length, IfOk};
ghost use Rattle.numbers.specs.Numbers.{put};
ghost use Rattle.message.specs.Words.{payload_size, ends_limit, terms_most, plain_words_most, word, masks};
ghost use Rattle.message.specs.Read.{read_plain, term_words};
ghost use Rattle.message.specs.Write.{end_words, message_words, rewritten_plain};
ghost use Rattle.message.specs.code.Told.{reading_of};

use super::{Message, PAYLOAD_SIZE};
use refusals::Refusal;

// Writes the word of a kind with a payload.
#[tactic(auto, unfolding(numbers::specs::Numbers::put))]
fn put_word(out: &mut [u32], at: usize, kind: u32, x: u32)
    requires { (at < length out.old) × (kind < 8) × (x < payload_size) }
    ensures { out.new ≡ put at (word kind x ∷ []) out.old }
{
    out[at] = kind * PAYLOAD_SIZE + x;
}

// Writes an end as two words of a kind, high 29 bits then low.
fn put_end(out: &mut [u32], at: usize, kind: u32, end: u64)
    requires { (at + 1 < length out.old) × (kind < 8) × (end < ends_limit) }
    ensures { out.new ≡ put at (word kind (end / payload_size) ∷ word kind (end % payload_size) ∷ []) out.old }
{
    put_word(out, at, kind, (end / PAYLOAD_SIZE as u64) as u32);
    put_word(out, at + 1, kind, (end % PAYLOAD_SIZE as u64) as u32);
}

// Writes both ends from place `at` on.
fn put_ends(out: &mut [u32], at: usize, left: u64, right: u64)
    requires { (at + 4 ≤ length out.old) × (left < ends_limit) × (right < ends_limit) }
    ensures { out.new ≡ put at (end_words left right) out.old }
{
    put_end(out, at, 2, left);
    put_end(out, at + 2, 3, right);
}

// Writes the words of kind 6 for the low 29 bits of each term, from place `at` on.
fn put_terms(out: &mut [u32], at: usize, terms: &[u32])
    requires { at + length terms.now ≤ length out.old }
    ensures { out.new ≡ put at (map (λ t. word 6 t) (masks terms.now)) out.old }
{
    for (i, term) in terms.iter().enumerate() {
        out[at + i] = 6 * PAYLOAD_SIZE + super::read::payload(*term);
    }
}

// Writes a message in ends form, its names right behind its head; its terms are the low 29 bits of `terms`, masks or term words. It stands alone so
// that rewriting and writing take less stack.
#[inline(never)]
pub fn write(out: &mut [u32], message: &Message<'_>)
    requires sender_bound { (message.now.sender < 32) × (message.now.left < ends_limit) × (message.now.right < ends_limit)
        × (length message.now.terms.now ≤ terms_most) }
    requires terms_in_bounds { length message.now.names.now + length message.now.terms.now + 6 ≤ length out.old }
    ensures { out.new ≡ put 0
        (message_words message.now.sender message.now.names.now message.now.left message.now.right (masks message.now.terms.now)) out.old }
{
    let count = message.terms.len();
    let at = message.names.len() + 1;
    put_word(out, 0, 1, message.sender + 32 * count as u32);
    predicates::sums::copy(out, 1, message.names);
    put_ends(out, at, message.left, message.right);
    put_terms(out, at + 4, message.terms);
    let last = at + 4 + count;
    let sum = super::read::check_of(&out[..last]);
    put_word(out, last, 7, sum);
}

// Reads a message and, where it is taken, writes it in ends form; a refused one writes nothing.
pub fn rewrite<'a>(words: &'a [u32], out: &mut [u32]) -> Result<Message<'a>, Refusal>
    requires { plain_words_most ≤ length out.old }
    ensures value { reading_of result ≡ read_plain words.now }
    ensures parts { IfOk result (λ m. (m.terms.now ≡ term_words (read_plain words.now) words.now) × (m.names.now ≡ [])) }
    ensures out_after { out.new ≡ put 0 (rewritten_plain words.now) out.old }
{
    let message = super::read::read(words)?;
    write(out, &message);
    Ok(message)
}
