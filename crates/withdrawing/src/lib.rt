// Withdrawing names in a state in form (document 02, W-204): they count as failed in all that it holds and knows. Each row is read once, put in
// normal form where it has one of the names, and left out where it has become true; then all are written.
// Every function here is proved, and the crate assumes nothing of its own.
#![tactic(auto)]

ghost use Rattle.std.specs.Prelude.{◌≡◌, [], ◌∷◌, ◌++◌, ℕ, ◌+◌, ◌≤◌, ◌<◌, T, All, MatchOption, map, take, length};
ghost use Rattle.numbers.specs.Numbers.{num, put, tab};
ghost use Rattle.state.specs.Layout.{state_size, own_at, data_most, entries_most};
ghost use Rattle.state.specs.Layout.{entry_terms, held_count, entry_count, datum_at, entry_at};
ghost use Rattle.state.specs.Layout.{head_of, store_of, state_bytes};
ghost use Rattle.state.specs.Form.{datum_fits, entry_fits, in_form};
ghost use Rattle.state.specs.code.Tables.{Table, table, TableFits, HeldFits, row_of, entries_in, datum_in, data_in};
ghost use Rattle.entries.specs.Entries.{withdrawn_entries};
ghost use Rattle.steps.specs.Withdrawn.{withdrawn_data, withdrawn};

use state::holding::Held;

// Datum i where the names of `risen` count as failed; none where it has become true.
fn get_datum(s: &[u8], i: usize, risen: u32) -> Option<Held>
    requires { (state_size ≤ length s.now) × (i < data_most) × T (datum_fits (num own_at 4 s.now) s.now i) }
    ensures { MatchOption result (withdrawn_data risen (datum_at s.now i ∷ []) ≡ [])
        (λ row. HeldFits row × (withdrawn_data risen (datum_at s.now i ∷ []) ≡ datum_in row ∷ [])) }
{
    let at = state::DATA_AT + i * state::DATUM_SIZE;
    let mut terms = [0; state::DATUM_TERMS];
    let count = state::store::get_seen(s, at + state::ROW_IN, risen, &mut terms);
    if terms[0] == 0 {
        return None;
    }
    Some(Held {
        ends: state::intervals::get(s, i),
        count: count as u32,
        terms,
    })
}

// Reads the data of a state in form into the rows from the front, oldest first, where the names of `risen` count as failed; those that have become
// true are left out. Answers how many rows there are. What stands behind them is free.
fn get_withdrawn(s: &[u8], risen: u32, held: &mut [Held]) -> usize
    requires { (state_size ≤ length s.now) × T (in_form s.now) × (held_count s.now ≤ length held.old) }
    ensures upper_bound { (result ≤ held_count s.now) × All HeldFits (take result held.new) }
    ensures fact { (map datum_in (take result held.new) ≡ withdrawn_data risen (store_of s.now).held)
        × (data_in (take result held.new) ≡ map datum_in (take result held.new)) }
{
    let mut r: usize = 0;
    let n = state::held(s);
    for i in 0..n {
        if let Some(row) = get_datum(s, i, risen) {
            held[r] = row;
            r += 1;
        }
    }
    r
}

// Reads entry i into row r where the names of `risen` count as failed, unless it has become true. Answers how many rows there are then.
// It is no twin of `get_datum`: it writes into a table, which has no rows of one type.
fn get_row(s: &[u8], i: usize, risen: u32, counts: &mut [u32], masks: &mut [u32], r: usize) -> usize
    requires state_size_in_bounds { (state_size ≤ length s.now) × (i < entries_most)
        × T (entry_fits (num own_at 4 s.now) s.now i) × (r < entries_most) }
    requires table_fits { TableFits entry_terms (r + 1) (table counts.old masks.old) }
    ensures upper_bound { (result ≤ r + 1) × TableFits entry_terms (r + 1) (table counts.new masks.new) }
    ensures masks_after { tab result (row_of entry_terms (table counts.new masks.new))
        ≡ tab r (row_of entry_terms (table counts.old masks.old)) ++ withdrawn_entries risen (entry_at s.now i ∷ []) }
{
    let at = state::ENTRIES_AT + i * state::ENTRY_SIZE;
    let mut row = [0u32; state::ENTRY_TERMS];
    let count = state::store::get_seen(s, at, risen, &mut row);
    if row[0] == 0 {
        return r;
    }
    entries::tables::add_row(counts, masks, r, state::ENTRY_TERMS, &row[..count]);
    r + 1
}

// Reads the entries of a state in form into the front of the table, oldest first, where the names of `risen` count as failed; those that have become
// true are left out. Answers how many rows there are. What stands behind them is free. (No twin of get_withdrawn: a table is no slice of rows.)
fn get_entries(s: &[u8], risen: u32, counts: &mut [u32], masks: &mut [u32]) -> usize
    requires state_size_in_bounds { (state_size ≤ length s.now) × T (in_form s.now) }
    requires table_fits { TableFits entry_terms (entry_count s.now) (table counts.old masks.old) }
    ensures upper_bound { (result ≤ entry_count s.now) × TableFits entry_terms (entry_count s.now) (table counts.new masks.new) }
    ensures fact { (let t : Table = table counts.new masks.new in
        (tab result (row_of entry_terms t) ≡ withdrawn_entries risen (store_of s.now).entries)
        × (entries_in result t ≡ tab result (row_of entry_terms t))) }
{
    let mut r: usize = 0;
    let n = state::known(s);
    for i in 0..n {
        r = get_row(s, i, risen, counts, masks, r);
    }
    r
}

// Withdraws the names of `risen` from all that a state in form holds and knows; its head stays.
pub fn withdraw(s: &mut [u8], risen: u32)
    requires { (state_size ≤ length s.old) × T (in_form s.old) }
    ensures { s.new
        ≡ put 0 (state_bytes (record { head = head_of s.old; store = withdrawn risen (store_of s.old) })) s.old }
{
    let mut held = [Held::none(); state::DATA_MOST];
    let mut counts = [0u32; state::ENTRIES_MOST];
    let mut masks = [0u32; state::ENTRY_MASKS];
    let h = get_withdrawn(s, risen, &mut held);
    let n = get_entries(s, risen, &mut counts, &mut masks);
    state::store::put_rows(s, &held[..h], &counts[..n], &masks);
}
