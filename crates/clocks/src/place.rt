// The bytes of one sender's place (document 02, W-201): its form, the test of new readings against what is saved there, and saving them.
ghost use Rattle.std.specs.Prelude.{◌≡◌, ◌+◌, ◌≤◌, T, IfSome, length};
ghost use Rattle.numbers.specs.Numbers.{put};
ghost use Rattle.clocks.specs.Clocks.{Fits, drift_most, violates, saving};
ghost use Rattle.clocks.specs.Places.{triple_size, place_size, triple_bytes, saved_bytes, triple_at, saved_at, place_fits};
ghost use Rattle.clocks.specs.code.Three.{three_of, saved_as, three_in, FitsThree};

use super::{Saved, Triple};

// How many bytes a place has, and where its triples stand in it: the previous one, those of the largest a − b + w and b − a + w.
pub const PLACE_SIZE: usize = 76;

const PREVIOUS_IN: usize = 4;

const AHEAD_IN: usize = 28;

const BEHIND_IN: usize = 52;

// Reads the triple at `at`.
#[tactic(auto, unfolding(crate::specs::Places::triple_at))]
fn get_triple(s: &[u8], at: usize) -> Triple
    requires { at + triple_size ≤ length s.now }
    ensures { result ≡ triple_at at s.now }
{
    Triple {
        there: numbers::get64(s, at),
        here: numbers::get64(s, at + 8),
        half: numbers::get64(s, at + 16),
    }
}

// Writes a triple to the place at `at`.
fn put_triple(s: &mut [u8], at: usize, t: Triple)
    requires { at + triple_size ≤ length s.old }
    ensures { s.new ≡ put at (triple_bytes t) s.old }
{
    numbers::put64(s, at, t.there);
    numbers::put64(s, at + 8, t.here);
    numbers::put64(s, at + 16, t.half);
}

// Reads the three triples of the place at `at`, whatever its flag says.
fn get_three(s: &[u8], at: usize) -> Saved
    requires { at + place_size ≤ length s.now }
    ensures { result ≡ three_in at s.now }
{
    Saved {
        previous: get_triple(s, at + PREVIOUS_IN),
        ahead: get_triple(s, at + AHEAD_IN),
        behind: get_triple(s, at + BEHIND_IN),
    }
}

// Reads what is saved in the place at `at`.
#[tactic(auto, unfolding(crate::specs::Places::saved_at, crate::specs::Places::three_at))]
fn get(s: &[u8], at: usize) -> Option<Saved>
    requires { at + place_size ≤ length s.now }
    ensures value { saved_as result ≡ saved_at at s.now }
    ensures in_range { T (place_fits at s.now) → IfSome result (λ v. FitsThree v) }
{
    if numbers::get32(s, at) == 0 {
        return None;
    }
    Some(get_three(s, at))
}

// Writes to the place at `at` that these three are saved.
fn put_three(s: &mut [u8], at: usize, saved: &Saved)
    requires { at + place_size ≤ length s.old }
    ensures { s.new ≡ put at (saved_bytes (three_of saved.now)) s.old }
{
    numbers::put32(s, at, 1);
    put_triple(s, at + PREVIOUS_IN, saved.previous);
    put_triple(s, at + AHEAD_IN, saved.ahead);
    put_triple(s, at + BEHIND_IN, saved.behind);
}

// Whether the place at `at` is in form: nothing saved and all zero, or three triples of numbers below 2^43. The numbers are read behind the
// test of the flag: so the compiler reads two at a time.
pub fn fits(s: &[u8], at: usize) -> bool
    requires { at + place_size ≤ length s.now }
    ensures { result ≡ place_fits at s.now }
{
    let flag = numbers::get32(s, at);
    if flag == 0 {
        return get_three(s, at).bits() == 0;
    }
    (flag == 1) & (get_three(s, at).bits() < super::TRIPLE_LIMIT)
}

// Whether a new triple violates test (20) against one that is saved at `at`, where own and sender's drift are given.
#[tactic(auto, unfolding(crate::specs::Clocks::violates))]
pub fn violated(s: &[u8], at: usize, own: u32, drift: u32, new: Triple) -> bool
    requires { (at + place_size ≤ length s.now) × T (place_fits at s.now) × (own ≤ drift_most) × (drift ≤ drift_most) × Fits new }
    ensures { result ≡ violates (own + drift) (saved_at at s.now) new }
{
    get(s, at).is_some_and(|saved| saved.violated(u64::from(own + drift), new))
}

// Saves a new triple in the place at `at`.
#[tactic(auto, unfolding(crate::specs::Clocks::saving))]
pub fn save(s: &mut [u8], at: usize, new: Triple)
    requires { (at + place_size ≤ length s.old) × T (place_fits at s.old) × Fits new }
    ensures { s.new ≡ put at (saved_bytes (saving (saved_at at s.old) new)) s.old }
{
    let saved = match get(s, at) {
        None => Saved::first(new),
        Some(old) => old.saving(new),
    };
    put_three(s, at, &saved);
}
