// Moving held data and entries between a state's bytes and arrays: read row by row, and written from the front without the rows that have been given
// up.
ghost use Rattle.std.specs.Prelude.{◌≡◌, List, ◌++◌, ℕ, ◌+◌, ◌*◌, ◌≤◌, ◌<◌, T, All, length, get_or, take, drop};
ghost use Rattle.numbers.specs.Numbers.{num, bytes, put, tab};
ghost use Rattle.predicates.specs.Lists.{padded};
ghost use Rattle.epochs.specs.Epochs.{withdraw};
ghost use Rattle.state.specs.Model.{Store};
ghost use Rattle.state.specs.Layout.{state_size, own_at, held_at, known_at, data_at, data_most, datum_size, datum_terms};
ghost use Rattle.state.specs.Layout.{entries_at, entries_most, entry_size, entry_terms};
ghost use Rattle.state.specs.Layout.{datum_place, entry_place, entry_count, row_at, masks_at, head_of};
ghost use Rattle.state.specs.Layout.{entry_bytes, data_bytes, entries_bytes, joined, state_bytes};
ghost use Rattle.state.specs.Form.{is_zero, row_fits, in_form};
ghost use Rattle.state.specs.code.Tables.{rows_most, Table, table, table_from, HeldFits, TableFits, DataStand, DataInPlace, EntriesStand};
ghost use Rattle.state.specs.code.Tables.{row_of, entries_in, data_in, store_in, datum_row};

use super::holding::Held;

// Datum i as a row.
pub fn get_datum(s: &[u8], i: usize) -> Held
    requires { (state_size ≤ length s.now) × (i < data_most) }
    ensures { result ≡ datum_row s.now i }
{
    let at = super::DATA_AT + i * super::DATUM_SIZE + super::ROW_IN;
    let mut terms = [0; super::DATUM_TERMS];
    numbers::get_words(s, at + 4, &mut terms);
    Held {
        ends: super::intervals::get(s, i),
        count: numbers::get32(s, at),
        terms,
    }
}

// Reads the data from the first on, one into each row.
pub fn get_data(s: &[u8], held: &mut [Held])
    requires { (state_size ≤ length s.now) × (length held.old ≤ data_most) }
    ensures { held.new ≡ tab (length held.old) (datum_row s.now) }
{
    for (i, row) in held.iter_mut().enumerate() {
        *row = get_datum(s, i);
    }
}

// Reads the row at `at`, which is in form, where the names of `risen` count as failed: its masks, with zeros behind those in use. Answers how many
// are.
pub fn get_seen(s: &[u8], at: usize, risen: u32, row: &mut [u32]) -> usize
    requires in_bounds { (at + 4 + length row.old * 4 ≤ length s.now) × (length row.old ≤ entry_terms) }
    requires t { T (row_fits (num own_at 4 s.now) (length row.old) at s.now) }
    ensures value { (result ≡ length (withdraw risen (row_at (length row.old) at s.now))) × (result ≤ length row.old) }
    ensures row_after { row.new ≡ padded (length row.old) (withdraw risen (row_at (length row.old) at s.now)) }
{
    let used = numbers::get32(s, at) as usize;
    numbers::get_words(s, at + 4, row);
    if risen == 0 {
        return used;
    }
    epochs::withdraw::withdraw(&mut row[..used], risen)
}

// Writes the entry in place i, of `count` terms, into place r.
fn move_entry(s: &mut [u8], i: usize, count: usize, r: usize)
    requires { (i < entries_most) × (r < entries_most) × (count ≤ entry_terms) × (state_size ≤ length s.old) }
    ensures { (let e : List ℕ = take count (masks_at entry_terms (entry_place i) s.old) in
        s.new ≡ put (entry_place r) (entry_bytes e) s.old) }
{
    let mut row = [0u32; super::ENTRY_TERMS];
    let at = super::ENTRIES_AT + i * super::ENTRY_SIZE;
    numbers::get_words(s, at + 4, &mut row);
    super::rows::put_entry(s, r, &row[..count]);
}

// Writes the data that have terms into the places from the front, in order, zeros into the places left over, and the held count. The first `standing`
// rows are as these very places have them, so what still stands in its own is not written again; the places from `used` on are zero already.
pub fn put_held(s: &mut [u8], held: &[Held], standing: usize, used: usize)
    requires fit { All HeldFits held.now × (length held.now ≤ data_most + 1) }
    requires few { length (data_in held.now) ≤ data_most }
    requires used_le_data_most { (used ≤ data_most) × T (is_zero (datum_place used) (datum_place data_most) s.old)
        × (state_size ≤ length s.old) }
    requires in_place { DataInPlace standing s.old held.now }
    ensures { s.new
        ≡ put held_at (bytes 4 (length (data_in held.now))) (put data_at (data_bytes (data_in held.now)) s.old) }
{
    let mut r: usize = 0;
    for (i, row) in held.iter().enumerate() {
        if row.is_live() {
            if (r < i) | (standing <= i) {
                super::rows::put_datum(s, r, row.ends, row.terms());
            }
            r += 1;
        }
    }
    let end = super::DATA_AT + used * super::DATUM_SIZE;
    super::rows::clear(s, super::DATA_AT + r * super::DATUM_SIZE, end);
    numbers::put32(s, super::HELD_AT, r as u32);
}

// Writes the entries that have terms into the places from the front, in order, zeros into the places left over, and the entry count. The rows below
// `first` have their terms in these very places, and what still stands in its own is not written again; the places from `used` on are zero already.
// (One function with put_held would be no plainer: entries are moved within the bytes that the loop writes, data are written from rows alone.)
pub fn put_known(s: &mut [u8], first: usize, counts: &[u32], masks: &[u32], used: usize)
    requires table_fits { TableFits entry_terms (length counts.now) (table_from first s.old counts.now masks.now) }
    requires masks_len_bound { length (entries_in (length counts.now) (table_from first s.old counts.now masks.now)) ≤ entries_most }
    requires n_le_rows_most { (length counts.now ≤ rows_most) × (first ≤ entries_most) × (state_size ≤ length s.old) }
    requires by_index { (i : ℕ) → i < first → (get_or counts.now i 0 ≡ 0 → ⊥)
        → put (entry_place i) (entry_bytes (row_of entry_terms (table_from first s.old counts.now masks.now) i)) s.old ≡ s.old }
    requires used_le_entries_most { (used ≤ entries_most) × T (is_zero (entry_place used) (entry_place entries_most) s.old) }
    ensures { (let es : List (List ℕ) = entries_in (length counts.now) (table_from first s.old counts.now masks.now) in
        s.new ≡ put known_at (bytes 4 (length es)) (put entries_at (entries_bytes es) s.old)) }
{
    let mut r: usize = 0;
    for (i, count) in counts.iter().enumerate() {
        let count = *count as usize;
        if 0 < count {
            if first <= i {
                let from = (i - first) * super::ENTRY_TERMS;
                let to = from + count;
                super::rows::put_entry(s, r, &masks[from..to]);
            } else if r < i {
                move_entry(s, i, count, r);
            }
            r += 1;
        }
    }
    let end = super::ENTRIES_AT + used * super::ENTRY_SIZE;
    super::rows::clear(s, super::ENTRIES_AT + r * super::ENTRY_SIZE, end);
    numbers::put32(s, super::KNOWN_AT, r as u32);
}

// Writes what rows of data and of entries hold into the state in form that they came from; its head stays. The entries that it had have their terms
// in it.
pub fn put_store(s: &mut [u8], held: &[Held], counts: &[u32], masks: &[u32])
    requires fit { All HeldFits held.now × (length held.now ≤ data_most + 1) × (length counts.now ≤ rows_most) }
    requires table_fits { TableFits entry_terms (length counts.now) (table_from (entry_count s.old) s.old counts.now masks.now) }
    requires few { length (data_in held.now) ≤ data_most }
    requires masks_len_bound { length (entries_in (length counts.now) (table_from (entry_count s.old) s.old counts.now masks.now)) ≤ entries_most }
    requires form { (state_size ≤ length s.old) × T (in_form s.old) }
    requires data_stand { DataStand s.old held.now × EntriesStand s.old counts.now }
    ensures { (let t : Table = table_from (entry_count s.old) s.old counts.now masks.now in
        s.new
        ≡ put 0 (state_bytes (record { head = head_of s.old; store = store_in held.now (length counts.now) t })) s.old) }
{
    let data = super::held(s);
    put_held(s, held, data, data);
    let entries = super::known(s);
    put_known(s, entries, counts, masks, entries);
}

// Writes what rows of data and of entries hold into a state in form, whatever stood there; its head stays. (A flag for put_store to do both would
// change what it asks.)
pub fn put_rows(s: &mut [u8], held: &[Held], counts: &[u32], masks: &[u32])
    requires fit { All HeldFits held.now × (length held.now ≤ data_most + 1) × (length counts.now ≤ rows_most) }
    requires table_fits { TableFits entry_terms (length counts.now) (table counts.now masks.now) }
    requires few { length (data_in held.now) ≤ data_most }
    requires masks_len_bound { length (entries_in (length counts.now) (table counts.now masks.now)) ≤ entries_most }
    requires form { (state_size ≤ length s.old) × T (in_form s.old) }
    ensures { (let k : Store = store_in held.now (length counts.now) (table counts.now masks.now) in
        s.new ≡ put 0 (state_bytes (record { head = head_of s.old; store = k })) s.old) }
{
    let data = super::held(s);
    put_held(s, held, 0, data);
    let entries = super::known(s);
    put_known(s, 0, counts, masks, entries);
}
