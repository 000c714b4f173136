// A receipt on the bytes of a state in form: the grown interval, the epochs heard, the formed predicate, the refusals 18, 30 and 31, the test of the
// sender's clock, and then the four steps; a taken receipt's epochs and readings are stored last.
ghost use Rattle.std.specs.Prelude.{◌≡◌, cond, [], ◌∷◌, ◌+◌, ◌*◌, ◌≤◌, ◌<◌, ◌^◌, T, length, take, None, IfSome};
ghost use Rattle.std.proofs.lemmas.List.Edits.{sets};
ghost use Rattle.refusals.specs.Refusals.{number};
ghost use Rattle.names.specs.Sets.{has};
ghost use Rattle.predicates.specs.Predicates.{implies, formed};
ghost use Rattle.epochs.specs.Epochs.{withdraw};
ghost use Rattle.epochs.specs.code.Known.{Named};
ghost use Rattle.ends.specs.Ends.{million, count_of, BothSplit};
ghost use Rattle.state.specs.Model.{Store, last_whole};
ghost use Rattle.state.specs.Layout.{datum_terms, state_bytes, head_of, store_of, state_of};
ghost use Rattle.state.specs.Refusal.{after};
ghost use Rattle.state.specs.code.Tables.{datum_of};
ghost use Rattle.steps.specs.Withdrawn.{withdrawn};
ghost use Rattle.message.specs.Words.{masks};
ghost use Rattle.receipts.specs.code.Given.{IsState, IsFormed, FromSender, delivered_by};
ghost use Rattle.receipts.specs.code.Taken.{taken_by, judged_in, with_store, store_number, after_risen};
ghost use Rattle.engine.specs.Ageing.{least_advance, greatest_advance};
ghost use Rattle.engine.specs.Calls.{receive, done};
ghost use Rattle.engine.specs.Refusals.{delay_most, receipt_refusal};

use super::delays::Delays;
use clocks::Readings;
use ends::{End, Ends};
use message::Message;
use refusals::Refusal;

// Copies the terms of term words to the front of a row.
// The library copies no words that are cut to their low 29 bits.
fn copy_masks(words: &[u32], row: &mut [u32])
    requires { length words.now ≤ length row.old }
    ensures { row.new ≡ sets row.old 0 (masks words.now) }
{
    for (i, word) in words.iter().enumerate() {
        row[i] = *word % message::PAYLOAD_SIZE;
    }
}

// The ends of a message's interval, grown by the delays: these were counted on the own clock, so its drift counts as in ageing.
fn grow(state: &[u8], delays: Delays, left: u64, right: u64) -> Ends
    requires state_size_in_bounds { IsState state.now }
    requires least_le_greatest { (delays.least ≤ delays.greatest) × (delays.greatest ≤ delay_most) × (left ≤ right) × (right ≤ last_whole) }
    ensures left_value { count_of result.left ≡ left * million + least_advance (head_of state.now).drift delays.least }
    ensures right_value { count_of result.right ≡ right * million + greatest_advance (head_of state.now).drift delays.greatest }
    ensures both_split { BothSplit result }
{
    let drift = u64::from(state::drift(state));
    let lo = engine::ageing::least_advance(delays.least, drift);
    let hi = engine::ageing::greatest_advance(delays.greatest, drift);
    Ends {
        left: End {
            whole: left + lo.whole,
            millionths: lo.millionths,
        },
        right: End {
            whole: right + hi.whole,
            millionths: hi.millionths,
        },
    }
}

// Forms in the row, of the term words, what the receiver `own` makes of a sender's predicate where the names of `late` count as failed. Answers
// how many terms it has.
fn form_row(words: &[u32], own: u32, sender: u32, late: u32, row: &mut [u32]) -> usize
    requires { (length words.now < length row.old) × (own < 32) × (sender < 32) }
    ensures value { (result ≡ length (withdraw late (formed own sender (masks words.now)))) × (result ≤ length words.now + 1) }
    ensures row_after { take result row.new ≡ withdraw late (formed own sender (masks words.now)) }
{
    copy_masks(words, row);
    let n = predicates::sums::form(&mut row[..words.len() + 1], own, sender);
    if late == 0 {
        return n;
    }
    epochs::withdraw::withdraw(&mut row[..n], late)
}

// The readings, unless their sender is among the names.
fn heed(readings: Option<Readings>, sender: u32, names: u32) -> Option<Readings>
    requires { sender < 32 }
    ensures { result ≡ cond (has sender names) None readings }
{
    if names::has(sender, names) {
        None
    } else {
        readings
    }
}

// Takes the datum of these ends under p: a true one where nobody is blamed adds nothing, and any other takes the four steps.
fn take_here(state: &mut [u8], new: Ends, p: &[u32], blame: Option<u32>) -> Result<(), Refusal>
    requires state_size_in_bounds { IsState state.old }
    requires p_nonzero { IsFormed p.now × IfSome blame (λ t. T (implies (t ∷ []) p.now))
        × BothSplit new }
    ensures value { number result ≡ store_number (taken_by blame (datum_of new p.now) (store_of state.old)) }
    ensures state_after { (let k : Store = taken_by blame (datum_of new p.now) (store_of state.old) in
        state.new ≡ after (number result) (state_bytes (with_store state.old k)) state.old) }
{
    if p[0] == 0 && blame.is_none() {
        return Ok(());
    }
    super::receiving::take_datum(state, new, p, blame)
}

// The same with the names of `risen` withdrawn first. What is held and known is kept, and put back where the receipt is refused.
fn take_risen(
    state: &mut [u8],
    new: Ends,
    p: &[u32],
    risen: u32,
    blame: Option<u32>,
) -> Result<(), Refusal>
    requires state_size_in_bounds { IsState state.old }
    requires p_nonzero { IsFormed p.now × IfSome blame (λ t. T (implies (t ∷ []) p.now))
        × BothSplit new }
    ensures result_value { (let k : Store = taken_by blame (datum_of new p.now) (withdrawn risen (store_of state.old)) in
        number result ≡ store_number k) }
    ensures state_after { (let k : Store = taken_by blame (datum_of new p.now) (withdrawn risen (store_of state.old)) in
        state.new ≡ after_risen (number result) risen (state_bytes (with_store state.old k)) state.old) }
{
    let mut kept = [0u8; state::CLOCKS_AT];
    kept.copy_from_slice(&state[..state::CLOCKS_AT]);
    withdrawing::withdraw(state, risen);
    let taken = take_here(state, new, p, blame);
    if taken.is_err() {
        state[..state::CLOCKS_AT].copy_from_slice(&kept);
    }
    taken
}

// Takes a datum of the sender under p, the formed predicate, with the names of `risen` withdrawn first: where the readings violate the test, the
// sender's name becomes an entry, which implies p; else a true predicate adds nothing, and any other takes the four steps. Clocks and epochs
// stay as they are.
fn take(
    state: &mut [u8],
    readings: Option<Readings>,
    sender: u32,
    new: Ends,
    p: &[u32],
    risen: u32,
) -> Result<(), Refusal>
    requires state_size_in_bounds { IsState state.old × FromSender sender readings }
    requires p_nonzero { IsFormed p.now × T (implies (2 ^ sender ∷ []) p.now)
        × BothSplit new }
    ensures result_value { number result ≡ store_number (judged_in state.old sender readings (datum_of new p.now) risen) }
    ensures state_after { (let k : Store = judged_in state.old sender readings (datum_of new p.now) risen in
        state.new ≡ after_risen (number result) risen (state_bytes (with_store state.old k)) state.old) }
{
    let blame = super::watching::blame(state, sender, readings);
    if risen == 0 {
        return take_here(state, new, p, blame);
    }
    take_risen(state, new, p, risen, blame)
}

// Receives what a message says, with readings or without. Refused as 18, 30, 31 or 32.
pub fn deliver(
    state: &mut [u8],
    delays: Delays,
    readings: Option<Readings>,
    message: &Message<'_>,
) -> Result<(), Refusal>
    requires state_size_in_bounds { IsState state.old }
    requires least_le_greatest { (delays.least ≤ delays.greatest) × (delays.greatest ≤ delay_most)
        × FromSender message.now.sender readings }
    requires left_le_right { (message.now.left ≤ message.now.right) × (message.now.right ≤ last_whole) × (length message.now.terms.now ≤ datum_terms)
        × Named message.now.names.now }
    ensures result_value { number result ≡ receipt_refusal (state_of state.old) (delivered_by delays readings message.now) }
    ensures state_after { state.new
        ≡ after (number result) (state_bytes (done (state_of state.old) (receive (delivered_by delays readings message.now)))) state.old }
{
    let own = state::own(state);
    let sender = message.sender;
    if sender == own {
        return Err(Refusal::Sender);
    }
    let new = grow(state, delays, message.left, message.right);
    if !state::intervals::storable(new.right) {
        return Err(Refusal::End);
    }
    let heard = epochs::known::hear(state, state::EPOCHS_AT, own, message.names);
    let mut row = [0u32; state::ENTRY_TERMS];
    let n = form_row(message.terms, own, sender, heard.late, &mut row);
    if state::DATUM_TERMS < n {
        return Err(Refusal::TermCount);
    }
    let tested = heed(readings, sender, heard.late | heard.risen);
    take(state, tested, sender, new, &row[..n], heard.risen)?;
    let heeded = heed(readings, sender, heard.late);
    super::hearing::close(state, own, message.names, heard.risen, sender, heeded);
    Ok(())
}
