// Claims told by the names that they need, on the bytes of a state in form: what asking looks at before it loads anything. "How many names a set
// holds decides every limit": a claim whose degree is above the limit cannot be made true.
ghost use Rattle.std.specs.Prelude.{◌≡◌, ◌+◌, ◌*◌, ◌≤◌, ◌<◌, leb, length};
ghost use Rattle.numbers.specs.Numbers.{num, tab};
ghost use Rattle.predicates.specs.Lists.{all_below};
ghost use Rattle.predicates.specs.Predicates.{degree};
ghost use Rattle.predicates.specs.code.Marks.{singles};
ghost use Rattle.state.specs.Layout.{own_at, held_count, entry_count, row_at, store_of};
ghost use Rattle.search.specs.code.Search.{row_width};
ghost use Rattle.claims.specs.code.Tables.{claim_at};
ghost use Rattle.claims.specs.code.Degrees.{degree_within, deciding};

use state::sound::InForm;

// Whether the predicate of the row at `at` has a degree of at most so many names. It stops at the first term that has no more.
fn degree_within(s: &[u8], at: usize, most: u32) -> bool
    requires { (num at 4 s.now ≤ row_width) × (at + 4 + row_width * 4 ≤ length s.now) }
    ensures { result ≡ leb (degree (row_at row_width at s.now)) most }
{
    let count = numbers::get32(s, at) as usize;
    for i in 0..count {
        if names::count(numbers::get32(s, at + 4 + i * 4)) <= most {
            return true;
        }
    }
    predicates::DEGREE_OF_FALSE <= most
}

// Whether so many names are enough for each of the first rows: the entries, and then held data.
pub fn within(s: InForm<'_>, rows: usize, most: u32) -> bool
    requires { rows ≤ entry_count s.bytes.now + held_count s.bytes.now }
    ensures { result ≡ all_below rows (degree_within (store_of s.entry.bytes.now) most) }
{
    let n = state::known(s.bytes);
    for i in 0..rows {
        if !degree_within(s.bytes, super::place(n, i), most) {
            return false;
        }
    }
    true
}

// The names that are terms of the row at `at`: each makes its predicate true alone.
fn single_names(s: &[u8], at: usize) -> u32
    requires { (num at 4 s.now ≤ row_width) × (at + 4 + row_width * 4 ≤ length s.now) }
    ensures { result ≡ singles (row_at row_width at s.now) }
{
    let count = numbers::get32(s, at) as usize;
    let mut names: u32 = 0;
    for i in 0..count {
        let t = numbers::get32(s, at + 4 + i * 4);
        if super::is_single(t) {
            names = names::union(names, t);
        }
    }
    names
}

// The names, without the own one, that each make all n entries true alone. It stops where no name is left.
pub fn deciding_names(s: InForm<'_>, n: usize) -> u32
    requires { n ≡ entry_count s.bytes.now }
    ensures { result ≡ deciding (store_of s.entry.bytes.now) (num own_at 4 s.entry.bytes.now) n }
{
    let mut names = names::others(numbers::get32(s.bytes, state::OWN_AT));
    for i in 0..n {
        names = names::shared(names, single_names(s.bytes, super::place(n, i)));
        if names == 0 {
            return 0;
        }
    }
    names
}

// Makes, of each of the held data, the mask of the names that make its predicate true alone.
pub fn get_singles(s: InForm<'_>, n: usize, masks: &mut [u32])
    requires { (n ≡ entry_count s.bytes.now) × (length masks.old ≡ held_count s.bytes.now) }
    ensures { masks.new ≡ tab (length masks.old) (λ i. singles (claim_at (store_of s.entry.bytes.now) (n + i)).terms) }
{
    for (i, mask) in masks.iter_mut().enumerate() {
        *mask = single_names(s.bytes, super::place(n, n + i));
    }
}
