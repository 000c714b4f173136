// Rewriting in ends form, and the names that a written message gives.
ghost use Rattle.std.specs.Prelude.{◌≡◌, ◌+◌, ◌≤◌, ◌<◌, length, IfOk};
ghost use Rattle.numbers.specs.Numbers.{put};
ghost use Rattle.epochs.specs.Epochs.{epochs_most, epochs_in};
ghost use Rattle.message.specs.Read.{term_words};
ghost use Rattle.message.specs.code.Told.{reading_of};
ghost use Rattle.radio.specs.Names.{names_of};
ghost use Rattle.radio.specs.Read.{words_most, read_words, epoch_words};
ghost use Rattle.radio.specs.Write.{rewritten};

use message::Message;
use refusals::Refusal;

// Reads a message and, where it is taken, writes it in ends form with its epoch words; a refused one writes nothing.
// Like `message::write::rewrite` but for the reader: a parameter for that would be longer than the body.
pub fn rewrite<'a>(words: &'a [u32], out: &mut [u32]) -> Result<Message<'a>, Refusal>
    requires { words_most ≤ length out.old }
    ensures value { reading_of result ≡ read_words words.now }
    ensures parts { IfOk result (λ m. (m.terms.now ≡ term_words (read_words words.now) words.now)
        × (m.names.now ≡ epoch_words (read_words words.now) words.now)) }
    ensures out_after { out.new ≡ put 0 (rewritten words.now) out.old }
{
    let message = super::read::read(words)?;
    message::write::write(out, &message);
    Ok(message)
}

// Puts the names of the identifiers in the mask, under the epochs in the bytes from index `at` on, at the front of `names`, rising; the rest stays.
// Answers how many.
pub fn known_names(s: &[u8], at: usize, mask: u32, names: &mut [u32]) -> usize
    requires { (at + epochs_most ≤ length s.now) × (epochs_most ≤ length names.old) }
    ensures value { (result ≡ length (names_of (epochs_in at s.now) mask)) × (result ≤ epochs_most) }
    ensures names_after { names.new ≡ put 0 (names_of (epochs_in at s.now) mask) names.old }
{
    let mut r: usize = 0;
    for n in 0..epochs::EPOCHS_MOST as u32 {
        if names::has(n, mask) {
            names[r] = n + 32 * epochs::known::epoch_of(s, at, n);
            r += 1;
        }
    }
    r
}
