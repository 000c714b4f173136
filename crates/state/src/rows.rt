// Writing into a state's bytes (document 01, "State bytes"): a row, a datum or an entry in its place, and zeros.
ghost use Rattle.std.specs.Prelude.{◌≡◌, ◌+◌, ◌*◌, ◌-◌, ◌≤◌, ◌<◌, length};
ghost use Rattle.numbers.specs.Numbers.{put};
ghost use Rattle.ends.specs.Ends.{BothSplit};
ghost use Rattle.state.specs.Layout.{state_size, data_most, datum_terms, entries_most, entry_terms, datum_place, entry_place};
ghost use Rattle.state.specs.Layout.{zeros, row_bytes, datum_bytes, entry_bytes};
ghost use Rattle.state.specs.code.Tables.{datum_of};

use ends::Ends;

// Puts zeros into the bytes from `from` up to `to`, if there are any.
pub fn clear(s: &mut [u8], from: usize, to: usize)
    requires { to ≤ length s.old }
    ensures { s.new ≡ put from (zeros (to - from)) s.old }
{
    if from < to {
        s[from..to].fill(0);
    }
}

// Puts a predicate into the row at `at`: the count, the terms, and zeros up to the width.
#[tactic(auto, using(crate::proofs::RowLoops::row_put))]
fn put_row(s: &mut [u8], at: usize, width: usize, terms: &[u32])
    requires { (length terms.now ≤ width) × (width ≤ entry_terms) × (at + 4 + width * 4 ≤ length s.old) }
    ensures { s.new ≡ put at (row_bytes width terms.now) s.old }
{
    let n = terms.len();
    numbers::put32(s, at, n as u32);
    numbers::put_words(s, at + 4, terms);
    clear(s, at + 4 + n * 4, at + 4 + width * 4);
}

// Puts a datum into place i.
#[tactic(auto, using(crate::proofs::RowLoops::datum_written))]
pub(crate) fn put_datum(s: &mut [u8], i: usize, ends: Ends, terms: &[u32])
    requires { (i < data_most) × (length terms.now ≤ datum_terms) × (state_size ≤ length s.old) × BothSplit ends }
    ensures { s.new ≡ put (datum_place i) (datum_bytes (datum_of ends terms.now)) s.old }
{
    let row = super::DATA_AT + i * super::DATUM_SIZE + super::ROW_IN;
    put_row(s, row, super::DATUM_TERMS, terms);
    super::intervals::put(s, i, ends);
}

// Puts an entry into place i.
#[tactic(auto, unfolding(crate::specs::Layout::entry_bytes))]
pub(crate) fn put_entry(s: &mut [u8], i: usize, terms: &[u32])
    requires { (i < entries_most) × (length terms.now ≤ entry_terms) × (state_size ≤ length s.old) }
    ensures { s.new ≡ put (entry_place i) (entry_bytes terms.now) s.old }
{
    put_row(
        s,
        super::ENTRIES_AT + i * super::ENTRY_SIZE,
        super::ENTRY_TERMS,
        terms,
    );
}
