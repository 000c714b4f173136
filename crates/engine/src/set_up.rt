// Setting up (document 01, "State bytes"): a fresh state holds nothing and knows nothing.
ghost use Rattle.std.specs.Prelude.{◌≡◌, ◌≤◌, length};
ghost use Rattle.refusals.specs.Refusals.{number};
ghost use Rattle.numbers.specs.Numbers.{put};
ghost use Rattle.epochs.specs.Epochs.{epoch_most};
ghost use Rattle.state.specs.Model.{name_most};
ghost use Rattle.state.specs.Layout.{state_size, state_bytes};
ghost use Rattle.state.specs.Refusal.{after};
ghost use Rattle.engine.specs.Calls.{setup, set_up};
ghost use Rattle.engine.specs.Refusals.{set_up_refusal};

use refusals::Refusal;

// Puts the fresh state of an own name, a drift, a reading and an epoch, part by part: the head, no data, the fresh knowledge, nothing saved of any
// clock, and of the epochs the own one.
fn put_fresh(s: &mut [u8], own: u32, drift: u32, reading: u64, epoch: u64)
    requires { (state_size ≤ length s.old) × (own ≤ name_most) × (epoch ≤ epoch_most) }
    ensures { s.new ≡ put 0 (state_bytes (set_up (setup own drift reading epoch))) s.old }
{
    numbers::put32(s, state::OWN_AT, own);
    numbers::put32(s, state::DRIFT_AT, drift);
    numbers::put64(s, state::READING_AT, reading);
    numbers::put32(s, state::HELD_AT, 0);
    state::rows::clear(s, state::DATA_AT, state::DATA_END);
    let known = state::knowledge::fresh();
    state::store::put_known(s, 0, known.counts(), &known.masks, state::ENTRIES_MOST);
    state::rows::clear(s, state::CLOCKS_AT, state::EPOCHS_AT);
    state::rows::clear(s, state::EPOCHS_AT, state::STATE_SIZE);
    s[state::EPOCHS_AT + own as usize] = epoch as u8;
}

// Sets a monitor up, or refuses and leaves the bytes as they are.
#[tactic(auto, unfolding(crate::specs::Refusals::set_up_refusal, state::specs::Refusal::after))]
pub fn set_up(
    state: &mut [u8],
    own: u32,
    drift: u32,
    reading: u64,
    epoch: u64,
) -> Result<(), Refusal>
    requires { state_size ≤ length state.old }
    ensures value { number result ≡ set_up_refusal (setup own drift reading epoch) }
    ensures state_after { state.new ≡ after (number result) (state_bytes (set_up (setup own drift reading epoch))) state.old }
{
    if state::NAME_MOST < own {
        return Err(Refusal::OwnName);
    }
    if (epochs::EPOCH_MOST as u64) < epoch {
        return Err(Refusal::OwnEpoch);
    }
    if state::DRIFT_MOST < drift {
        return Err(Refusal::Drift);
    }
    if state::READING_LIMIT <= reading {
        return Err(Refusal::Reading);
    }
    put_fresh(state, own, drift, reading, epoch);
    Ok(())
}
