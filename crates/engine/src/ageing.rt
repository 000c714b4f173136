// Ageing (document 01, "Ageing"), in place on the bytes of a state in form: every test comes before the first byte is written.
ghost use Rattle.std.specs.Prelude.{◌≡◌, ◌+◌, ◌*◌, ◌≤◌, ◌<◌, ◌^◌, ltb, length, T};
ghost use Rattle.refusals.specs.Refusals.{number};
ghost use Rattle.numbers.specs.Numbers.{put};
ghost use Rattle.ends.specs.Ends.{million, count_of, Split};
ghost use Rattle.state.specs.Model.{Store, State, reading_limit, end_limit};
ghost use Rattle.clocks.specs.Clocks.{drift_most};
ghost use Rattle.state.specs.Layout.{state_size, data_at, held_count, datum_at, joined, datum_bytes, state_bytes, store_of, state_of};
ghost use Rattle.state.specs.Refusal.{after};
ghost use Rattle.state.specs.Form.{in_form};
ghost use Rattle.engine.specs.Ageing.{least_advance, greatest_advance, aged};
ghost use Rattle.engine.specs.Refusals.{age_refusal};
ghost use Rattle.engine.specs.Calls.{age, done};
ghost use Rattle.engine.specs.code.Ageing.{stays_below};

use ends::{End, Ends};
use refusals::Refusal;
use state::sound::InForm;

// How far true time advances while d microseconds pass on a clock, at so many millionths for each: d * rate millionths. Split at the million, since
// the product can pass 64 bits.
fn advance(d: u64, rate: u64) -> End
    requires { (d < reading_limit) × (rate ≤ million + drift_most) }
    ensures { (count_of result ≡ d * rate) × Split result }
{
    let low = d % ends::MILLION * rate;
    End {
        whole: d / ends::MILLION * rate + low / ends::MILLION,
        millionths: low % ends::MILLION,
    }
}

// How much true time advances at least while d microseconds pass on a clock of drift r.
pub fn least_advance(d: u64, r: u64) -> End
    requires { (d < reading_limit) × (r ≤ drift_most) }
    ensures { (count_of result ≡ least_advance r d) × Split result × (result.whole ≤ d) }
{
    advance(d, ends::MILLION - r)
}

// How much it advances at most.
pub fn greatest_advance(d: u64, r: u64) -> End
    requires { (d < reading_limit) × (r ≤ drift_most) }
    ensures { (count_of result ≡ greatest_advance r d) × Split result × (result.whole ≤ d + d) }
{
    advance(d, ends::MILLION + r)
}

// Whether the right end of held datum i can be stored when it gains hi. The whole microseconds nearly always tell.
fn right_stays(s: InForm<'_>, i: usize, hi: End) -> bool
    requires { (i < held_count s.bytes.now) × Split hi × (hi.whole < 2 ^ 59) }
    ensures { result ≡ ltb ((datum_at s.entry.bytes.now i).right + count_of hi) end_limit }
{
    let right = state::intervals::get(s.bytes, i).right;
    if right.whole + hi.whole < state::LAST_WHOLE - 1 {
        return true;
    }
    state::intervals::storable(ends::plus(right, hi))
}

// Whether every held datum's right end can be.
fn stays_below(s: InForm<'_>, hi: End) -> bool
    requires { Split hi × (hi.whole < 2 ^ 59) }
    ensures { result ≡ stays_below (count_of hi) (store_of s.entry.bytes.now) }
{
    state::places::each(state::held(s.bytes), |i| right_stays(s, i, hi))
}

// Adds lo to every held datum's left end and hi to its right end.
fn widen(s: &mut [u8], lo: End, hi: End)
    requires { (state_size ≤ length s.old) × T (in_form s.old) × Split lo × Split hi × (lo.whole < 2 ^ 59) × (hi.whole < 2 ^ 59) }
    ensures { (let k : Store = aged (count_of lo) (count_of hi) (store_of s.old) in
        s.new ≡ put data_at (joined datum_bytes k.held) s.old) }
{
    for i in 0..state::held(s) {
        let ends = state::intervals::get(s, i);
        let wide = Ends {
            left: ends::plus(ends.left, lo),
            right: ends::plus(ends.right, hi),
        };
        state::intervals::put(s, i, wide);
    }
}

// Ages the state to a reading of the own clock, or refuses and leaves the bytes as they are.
#[tactic(auto, unfolding(crate::specs::Refusals::age_refusal, state::specs::Refusal::after))]
pub fn age(state: &mut [u8], reading: u64) -> Result<(), Refusal>
    requires { (state_size ≤ length state.old) × T (in_form state.old) }
    ensures value { number result ≡ age_refusal (state_of state.old) reading }
    ensures state_after { (let st : State = done (state_of state.old) (age reading) in
        state.new ≡ after (number result) (state_bytes st) state.old) }
{
    if state::READING_LIMIT <= reading {
        return Err(Refusal::Reading);
    }
    let last = state::reading(state);
    if reading < last {
        return Err(Refusal::Backwards);
    }
    let drift = state::drift(state) as u64;
    let hi = greatest_advance(reading - last, drift);
    if !stays_below(InForm { bytes: state }, hi) {
        return Err(Refusal::End);
    }
    widen(state, least_advance(reading - last, drift), hi);
    numbers::put64(state, state::READING_AT, reading);
    Ok(())
}
