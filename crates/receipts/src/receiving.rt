// Receiving a datum that is not true, or one of a sender whose clock has jumped, on the bytes of a state in form: the held data go into rows of a
// local array, the entries stay where they are, and what is learnt stands beside them; what the four steps leave is counted, and the bytes are
// written only once nothing refuses.
ghost use Rattle.std.specs.Prelude.{◌≡◌, cond, [], ◌∷◌, ◌*◌, ◌≤◌, ◌<◌, max, T, length, IfSome};
ghost use Rattle.refusals.specs.Refusals.{number};
ghost use Rattle.predicates.specs.Predicates.{implies};
ghost use Rattle.ends.specs.Ends.{BothSplit};
ghost use Rattle.state.specs.Model.{Store};
ghost use Rattle.state.specs.Layout.{data_most, datum_terms, entry_terms, state_bytes, held_count, entry_count, store_of};
ghost use Rattle.state.specs.Refusal.{after};
ghost use Rattle.state.specs.code.Tables.{datum_of};
ghost use Rattle.steps.specs.Steps.{settled, too_many};
ghost use Rattle.receipts.specs.code.Blame.{blamed_by};
ghost use Rattle.receipts.specs.code.Given.{IsState};
ghost use Rattle.receipts.specs.code.Taken.{with_store};

use ends::Ends;
use refusals::Refusal;
use state::holding::Held;
use steps::Rows;

// A row more than there are places for data, since a receipt counts at its end.
const DATA_ROWS: usize = state::DATA_MOST + 1;

// The masks of the entries that one receipt can learn, one for each held datum; and of those that it can learn where few data are held.
const LEARNT_MASKS: usize = state::DATA_MOST * state::ENTRY_TERMS;

const FEW_DATA: usize = 4;

const FEW_MASKS: usize = FEW_DATA * state::ENTRY_TERMS;

// Takes the four steps with the datum of these ends under p. After a violation `blame` is the sender's name as a term, which becomes an entry
// first. The array has a row for each entry that can be learnt.
fn take_in(
    state: &mut [u8],
    new: Ends,
    p: &[u32],
    old: Rows,
    masks: &mut [u32],
    blame: Option<u32>,
) -> Result<(), Refusal>
    requires state_size_in_bounds { IsState state.old }
    requires held_value { (old.held ≡ held_count state.old) × (old.known ≡ entry_count state.old) }
    requires p_nonzero { (0 < length p.now) × (length p.now ≤ datum_terms) × (max 1 old.held * entry_terms ≤ length masks.old) × BothSplit new }
    requires t { IfSome blame (λ t. T (implies (t ∷ []) p.now)) }
    ensures value { number result ≡ cond (too_many (settled (datum_of new p.now) (blamed_by blame (store_of state.old)))) 32 0 }
    ensures state_after { (let k : Store = settled (datum_of new p.now) (blamed_by blame (store_of state.old)) in
        state.new ≡ after (number result) (state_bytes (with_store state.old k)) state.old) }
{
    let mut held = [Held::none(); DATA_ROWS];
    let mut counts = [0u32; state::ROWS_MOST];
    state::store::get_data(state, &mut held[..old.held]);
    let left = settling::settle(&mut held, new, p, state, &mut counts, masks, old, blame);
    let live = settling::count(&held[..left.held], &counts[..left.known]);
    if (state::DATA_MOST < live.held) | (state::ENTRIES_MOST < live.known) {
        return Err(Refusal::TooMany);
    }
    state::store::put_store(state, &held[..left.held], &counts[..left.known], masks);
    Ok(())
}

// The same with an array of N masks.
fn take_with<const N: usize>(
    state: &mut [u8],
    new: Ends,
    p: &[u32],
    old: Rows,
    blame: Option<u32>,
) -> Result<(), Refusal>
    requires state_size_in_bounds { IsState state.old }
    requires held_value { (old.held ≡ held_count state.old) × (old.known ≡ entry_count state.old) }
    requires p_nonzero { (0 < length p.now) × (length p.now ≤ datum_terms) × (max 1 old.held * entry_terms ≤ N)
        × (N ≤ data_most * entry_terms) × BothSplit new }
    requires t { IfSome blame (λ t. T (implies (t ∷ []) p.now)) }
    ensures value { number result ≡ cond (too_many (settled (datum_of new p.now) (blamed_by blame (store_of state.old)))) 32 0 }
    ensures state_after { (let k : Store = settled (datum_of new p.now) (blamed_by blame (store_of state.old)) in
        state.new ≡ after (number result) (state_bytes (with_store state.old k)) state.old) }
{
    let mut masks = [0u32; N];
    take_in(state, new, p, old, &mut masks, blame)
}

// Takes the four steps with the datum of these ends under p, the blamed name being an entry first, if there is one. Where few data are held, less
// is cleared.
pub(crate) fn take_datum(
    state: &mut [u8],
    new: Ends,
    p: &[u32],
    blame: Option<u32>,
) -> Result<(), Refusal>
    requires state_size_in_bounds { IsState state.old }
    requires p_nonzero { (0 < length p.now) × (length p.now ≤ datum_terms) × BothSplit new }
    requires t { IfSome blame (λ t. T (implies (t ∷ []) p.now)) }
    ensures value { number result ≡ cond (too_many (settled (datum_of new p.now) (blamed_by blame (store_of state.old)))) 32 0 }
    ensures state_after { (let k : Store = settled (datum_of new p.now) (blamed_by blame (store_of state.old)) in
        state.new ≡ after (number result) (state_bytes (with_store state.old k)) state.old) }
{
    let old = Rows {
        held: state::held(state),
        known: state::known(state),
    };
    if FEW_DATA < old.held {
        take_with::<LEARNT_MASKS>(state, new, p, old, blame)
    } else {
        take_with::<FEW_MASKS>(state, new, p, old, blame)
    }
}
