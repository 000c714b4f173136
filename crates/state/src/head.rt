// The five numbers in the head of a state's bytes, each read by name; the counts are within the places where the state is in form.
#![tactic(auto, using(crate::proofs::StateLaws::head_ranges))]

ghost use Rattle.std.specs.Prelude.{◌≡◌, ◌≤◌, ◌<◌, T, length};
ghost use Rattle.numbers.specs.Numbers.{num};
ghost use Rattle.clocks.specs.Clocks.{drift_most};
ghost use Rattle.state.specs.Model.{name_most, reading_limit};
ghost use Rattle.state.specs.Layout.{state_size, own_at, drift_at, reading_at, held_count, entry_count, data_most, entries_most};
ghost use Rattle.state.specs.Form.{in_form};

// The own name.
pub fn own(s: &[u8]) -> u32
    requires { state_size ≤ length s.now }
    ensures value { result ≡ num own_at 4 s.now }
    ensures in_range { T (in_form s.now) → result ≤ name_most }
{
    numbers::get32(s, super::OWN_AT)
}

// The drift of the own clock, in millionths.
pub fn drift(s: &[u8]) -> u32
    requires { state_size ≤ length s.now }
    ensures value { result ≡ num drift_at 4 s.now }
    ensures in_range { T (in_form s.now) → result ≤ drift_most }
{
    numbers::get32(s, super::DRIFT_AT)
}

// The last reading of the own clock.
pub fn reading(s: &[u8]) -> u64
    requires { state_size ≤ length s.now }
    ensures value { result ≡ num reading_at 8 s.now }
    ensures in_range { T (in_form s.now) → result < reading_limit }
{
    numbers::get64(s, super::READING_AT)
}

// How many data are held.
pub fn held(s: &[u8]) -> usize
    requires { state_size ≤ length s.now }
    ensures value { result ≡ held_count s.now }
    ensures in_range { T (in_form s.now) → result ≤ data_most }
{
    numbers::get32(s, super::HELD_AT) as usize
}

// How many entries are known.
pub fn known(s: &[u8]) -> usize
    requires { state_size ≤ length s.now }
    ensures value { result ≡ entry_count s.now }
    ensures in_range { T (in_form s.now) → result ≤ entries_most }
{
    numbers::get32(s, super::KNOWN_AT) as usize
}
