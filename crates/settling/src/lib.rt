// The four steps of one receipt, one after the other, on the held data in rows and the entries in a table, and how much they leave.
// Every function here is proved, and the crate assumes nothing of its own.
#![tactic(auto)]

ghost use Rattle.std.specs.Prelude.{◌≡◌, [], ◌∷◌, ◌+◌, ◌≤◌, ◌<◌, max, length, map, take, filter, T, All, IfSome};
ghost use Rattle.predicates.specs.Predicates.{implies};
ghost use Rattle.ends.specs.Ends.{BothSplit};
ghost use Rattle.state.specs.Layout.{state_size, datum_terms, entry_terms, entry_count, store_of};
ghost use Rattle.state.specs.code.Tables.{rows_most};
ghost use Rattle.state.specs.Form.{in_form};
ghost use Rattle.state.specs.code.Tables.{table_from, TableFits, HeldFits, EntriesStand};
ghost use Rattle.state.specs.code.Tables.{has_terms, terms_of, datum_of, datum_in, data_in, store_in};
ghost use Rattle.entries.specs.code.Rows.{known, Room, Kept};
ghost use Rattle.settling.specs.code.Rows.{DataLeft, live, with_term};
ghost use Rattle.steps.specs.Steps.{learnt, met, without, stored, settled};

use ends::Ends;
use entries::tables::Entries;
use state::holding::Held;
use steps::Rows;

// Steps 3 and 4: the new datum is met with the oldest under its predicate, and stored behind the first h rows unless a held one betters it. Answers
// how many rows of data there are now.
fn place(held: &mut [Held], h: usize, new: Ends, p: &[u32]) -> usize
    requires fit { All HeldFits (take h held.old) × (h < length held.old) }
    requires p_nonzero { (0 < length p.now) × (length p.now ≤ datum_terms) × BothSplit new }
    ensures fact { (result ≤ h + 1) × All HeldFits (take result held.new) × DataLeft (take h held.old) held.new }
    ensures data_after { data_in (take result held.new)
        ≡ stored (met (datum_of new p.now) (data_in (take h held.old))) (without p.now (data_in (take h held.old))) }
{
    let rows = &mut held[..h];
    let ends = steps::steps::meet(rows, new, p);
    if steps::steps::bettered(rows, ends, p) {
        return h;
    }
    steps::steps::drop_bettered(rows, ends, p);
    held[h] = Held::new(ends, p);
    h + 1
}

// Step 1: after a violation the blamed name is placed as an entry, which implies p, so that there is nothing else to learn; else what the new
// datum and the held data teach.
fn learn(held: &[Held], new: Ends, p: &[u32], entries: &mut Entries<'_>, blame: Option<u32>)
    requires fit { All HeldFits held.now × BothSplit new }
    requires room { Room (max 1 (length held.now)) entries.old }
    requires p_nonzero { (0 < length p.now) × (length p.now ≤ datum_terms) }
    requires t { IfSome blame (λ t. T (implies (t ∷ []) p.now)) }
    ensures kept { Kept entries.old entries.new × (entries.new.n ≤ entries.old.n + max 1 (length held.now)) }
    ensures same_arrays { (entries.new.counts.ghost_name ≡ entries.old.counts.ghost_name)
        × (entries.new.masks.ghost_name ≡ entries.old.masks.ghost_name) × (entries.new.marks.ghost_name ≡ entries.old.marks.ghost_name) }
    ensures entries_after { known entries.new ≡ learnt (datum_of new p.now) (map datum_in held.now) (with_term blame (known entries.old)) }
{
    match blame {
        Some(term) => entries.learn_term(term),
        None => steps::steps::learn_all(held, new, p, entries),
    }
}

// The four steps: what the new datum teaches, what the entries explain, and what becomes of it. The entries stay in the state's bytes; they are
// marked first, since many predicates are held against them. After a violation of the sender's clock `blame` is its name as a term, which
// implies p. Answers how many rows there are now. What stands in the arrays for rows without terms (a datum that is not stored,
// say), and behind the last row, is free. The caller's arrays come one by one, since the caller of a struct of loans would learn nothing of them.
pub fn settle(
    held: &mut [Held],
    new: Ends,
    p: &[u32],
    s: &[u8],
    counts: &mut [u32],
    masks: &mut [u32],
    rows: Rows,
    blame: Option<u32>,
) -> Rows
    requires fit { All HeldFits (take rows.held held.old) × (rows.held < length held.old) × BothSplit new }
    requires state_size_in_bounds { (state_size ≤ length s.now) × T (in_form s.now) × (rows.known ≡ entry_count s.now) }
    requires table_fits { TableFits entry_terms (rows.known + max 1 rows.held) (table_from rows.known s.now counts.old masks.old) }
    requires p_nonzero { (0 < length p.now) × (length p.now ≤ datum_terms) × (rows.known + max 1 rows.held ≤ rows_most) }
    requires t { IfSome blame (λ t. T (implies (t ∷ []) p.now)) }
    requires all_held { map datum_in (take rows.held held.old) ≡ data_in (take rows.held held.old) }
    ensures held_bound { (result.held ≤ rows.held + 1) × (result.known ≤ rows.known + max 1 rows.held)
        × (length held.new ≡ length held.old) × (length counts.new ≡ length counts.old) × (length masks.new ≡ length masks.old) }
    ensures fact { All HeldFits (take result.held held.new) × DataLeft (take rows.held held.old) held.new }
    ensures table_fits_2 { TableFits entry_terms result.known (table_from rows.known s.now counts.new masks.new)
        × EntriesStand s.now counts.new }
    ensures store_after { store_in (take result.held held.new) result.known (table_from rows.known s.now counts.new masks.new)
        ≡ settled (datum_of new p.now)
        (record { held = data_in (take rows.held held.old); entries = with_term blame (store_of s.now).entries }) }
{
    let h = rows.held;
    let first = rows.known;
    let mut marks = [0u32; state::ROWS_MOST];
    entries::tables::mark_rows(s, first, counts, &mut marks);
    let mut entries = Entries {
        state: s,
        first,
        counts,
        masks,
        marks: &mut marks,
        n: first,
    };
    learn(&held[..h], new, p, &mut entries, blame);
    steps::steps::drop_explained(&mut held[..h], &entries.standing());
    let known = entries.n;
    if entries.explained(p) {
        return Rows { held: h, known };
    }
    Rows {
        held: place(held, h, new, p),
        known,
    }
}

// How many rows have terms.
fn live_rows(held: &[Held]) -> usize
    ensures { result ≡ length (filter (λ r. has_terms (terms_of r)) held.now) }
{
    held.iter().filter(|row| row.is_live()).count()
}

// How many counts of terms are not zero.
// It and `live_rows` are one-line chains over two types: a trait for both would be longer.
#[tactic(auto, unfolding(crate::specs::code::Rows::live))]
fn live(counts: &[u32]) -> usize
    ensures { result ≡ live counts.now }
{
    counts.iter().filter(|count| **count != 0).count()
}

// How many rows of data and of entries have terms: what a receipt leaves, before a byte of it is written.
pub fn count(held: &[Held], counts: &[u32]) -> Rows
    ensures { (result.held ≡ length (data_in held.now)) × (result.known ≡ live counts.now) }
{
    Rows {
        held: live_rows(held),
        known: live(counts),
    }
}
