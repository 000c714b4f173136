// The fewest failures (document 01, "Fewest failures"): by rising counts, the least of the sets for which an instant counts.
// Every function here is proved, and the crate assumes nothing of its own.
#![tactic(auto)]

ghost use Rattle.std.specs.Prelude.{◌≡◌, ◌+◌, ◌≤◌, length};
ghost use Rattle.std.specs.Option.{unwrap_or};
ghost use Rattle.state.specs.Layout.{state_of, entry_count, held_count};
ghost use Rattle.asking.specs.Fewest.{fewest, fewest_of};
ghost use Rattle.fewest.specs.code.Limits.{FirstLimit, Floor};

use search::rows::{Row, Span};
use search::stretches::Table;
use state::sound::InForm;

// The first limit from 2 to 4 that the entries do not rule out by themselves, if there is one.
fn first_limit(s: InForm<'_>) -> Option<u32>
    ensures { FirstLimit (state_of s.entry.bytes.now) (unwrap_or result 5) }
{
    for limit in 2..5 {
        if !asking::ask::hopeless(s, limit) {
            return Some(limit);
        }
    }
    None
}

// The fewest failures that explain a state in form, where no set of fewer than `from` names does, with arrays for its claims, of as many rows
// as there are. What is left in the arrays is free.
fn fewest_in(
    s: InForm<'_>,
    from: u32,
    n: usize,
    rows: &mut [Row],
    order: &mut [u32],
    ends: &mut [Span],
) -> Option<u32>
    requires count { n ≡ entry_count s.bytes.now }
    requires room { (length rows.old ≡ n + held_count s.bytes.now) × (length order.old ≡ length rows.old) × (length ends.old ≡ length rows.old) }
    requires floor { (from ≤ 5) × Floor (state_of s.bytes.now) from }
    ensures { fewest_of result ≡ fewest (state_of s.entry.bytes.now) }
{
    claims::load(s, n, rows, order);
    claims::keys::get_ends(s, n, ends);
    let free = names::others(state::own(s.bytes));
    let table = Table {
        rows,
        ends,
        order,
        entries: n,
    };
    let mut listed = [0u32; search::ROWS_MOST];
    for limit in from..5 {
        if let Some(set) = table.least_within(&mut listed, limit, free) {
            return Some(set);
        }
    }
    None
}

// The same, with room for the rows of every state.
fn fewest_from(s: InForm<'_>, from: u32) -> Option<u32>
    requires { (from ≤ 5) × Floor (state_of s.bytes.now) from }
    ensures { fewest_of result ≡ fewest (state_of s.entry.bytes.now) }
{
    let n = state::known(s.bytes);
    let rows = n + state::held(s.bytes);
    let mut table = [Row::EMPTY; search::ROWS_MOST];
    let mut order = [0u32; search::ROWS_MOST];
    let mut ends = [Span { left: 0, right: 0 }; search::ROWS_MOST];
    fewest_in(
        s,
        from,
        n,
        &mut table[..rows],
        &mut order[..rows],
        &mut ends[..rows],
    )
}

// The fewest failures that explain a state in form: their names as a set; none where more than 4 have failed.
pub fn fewest_failures(s: InForm<'_>) -> Option<u32>
    ensures { fewest_of result ≡ fewest (state_of s.entry.bytes.now) }
{
    if asking::ask::agree(s) {
        return Some(0);
    }
    if let Some(one) = asking::one::fewest_one(s) {
        return Some(one);
    }
    let from = first_limit(s)?;
    fewest_from(s, from)
}
