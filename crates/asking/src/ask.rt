// Asking (document 01, "Asking"): open, contradicted, or from the first left end that can be explained to the last right end.
ghost use Rattle.std.specs.Prelude.{◌≡◌, ℕ, ◌+◌, ◌^◌, ◌≤◌, ◌<◌, ◌&&◌, leb, length, get_or};
ghost use Rattle.numbers.specs.Numbers.{tab};
ghost use Rattle.state.specs.Layout.{held_count, entry_count, store_of, state_of, entries_most};
ghost use Rattle.asking.specs.Asking.{answer};
ghost use Rattle.asking.specs.code.Plain.{greatest_left, least_right};
ghost use Rattle.asking.specs.Fewest.{not_contradicted};
ghost use Rattle.asking.specs.code.Claims.{everything, Explained, hopeless};
ghost use Rattle.asking.specs.code.Mirror.{mirrored};
ghost use Rattle.predicates.specs.Lists.{all_below};
ghost use Rattle.claims.specs.code.Degrees.{degree_within};
ghost use Rattle.claims.specs.code.Tables.{Loaded};
ghost use Rattle.search.specs.code.Search.{rows_most};
ghost use Rattle.search.specs.code.LeftEnds.{lefts_of, rights_of, Complete};
ghost use Rattle.state.specs.Model.{end_limit, last_whole};
ghost use Rattle.ends.specs.Ends.{count_of, BothSplit};
ghost use Rattle.claims.specs.code.Keys.{start_of, step_of, down_by, up_by, last_key};
ghost use Rattle.asking.specs.declared.Answer.TheVariants.{Between};

use super::Answer;
use claims::keys::Scale;
use ends::{End, Ends};
use search::rows::{Row, Span};
use search::search::Search;
use search::stretches::Table;
use state::sound::InForm;

// So many rows are few.
const FEW_ROWS: usize = 12;

// The answer between two keys, in whole microseconds: the left end rounds down and the right end up.
pub(crate) fn rounded(scale: Scale, left: u64, right: u64) -> Answer
    requires { (start_of scale ≤ last_whole) × (right + step_of scale ≤ 2 ^ 64) }
    ensures { result ≡ Between (down_by scale left) (up_by scale right) }
{
    Answer::Between(
        claims::keys::down(scale, left),
        claims::keys::up(scale, right),
    )
}

// The greatest left end of the held data and the least right end.
fn meeting(s: InForm<'_>) -> Ends
    ensures { (count_of result.left ≡ greatest_left 0 (store_of s.entry.bytes.now).held)
        × (count_of result.right ≡ least_right end_limit (store_of s.entry.bytes.now).held) × BothSplit result }
{
    let mut left = End {
        whole: 0,
        millionths: 0,
    };
    let mut right = End {
        whole: state::LAST_WHOLE,
        millionths: 1,
    };
    for i in 0..state::held(s.bytes) {
        let next = state::intervals::get(s.bytes, i);
        left = ends::later(left, next.left);
        right = ends::earlier(right, next.right);
    }
    Ends { left, right }
}

// The answer at limit 0, where no name may have failed: what all held intervals have in common, if nothing is known to have failed.
fn plain(s: InForm<'_>) -> Answer
    ensures { result ≡ answer 0 (state_of s.entry.bytes.now) }
{
    if 0 < state::known(s.bytes) {
        return Answer::Contradicted;
    }
    if state::held(s.bytes) == 0 {
        return Answer::Open;
    }
    let common = meeting(s);
    if ends::precedes(common.right, common.left) {
        return Answer::Contradicted;
    }
    let left = common.left;
    Answer::Between(left.whole, ends::round_up(common.right))
}

// Whether an instant counts where no name has failed.
pub fn agree(s: InForm<'_>) -> bool
    ensures { result ≡ not_contradicted (answer 0 (state_of s.entry.bytes.now)) }
{
    !matches!(plain(s), Answer::Contradicted)
}

// Turns the keys round, as seen from the last one, so that the right ends are left ones and their falling is a rising.
fn mirror(ends: &mut [Span])
    requires { (i : ℕ) → i < length ends.old → (get_or (lefts_of ends.old) i 0 ≤ last_key) × (get_or (rights_of ends.old) i 0 ≤ last_key) }
    ensures { ends.new ≡ tab (length ends.old) (mirrored ends.old) }
{
    for span in ends.iter_mut() {
        *span = Span {
            left: claims::keys::LAST - span.right,
            right: claims::keys::LAST - span.left,
        };
    }
}

// The answer where not every instant counts: the first left end and the last right end that can be explained. What is left in `ends`, an array of as
// many as there are rows, is free.
fn between_in(
    s: InForm<'_>,
    n: usize,
    rows: &[Row],
    order: &[u32],
    limit: u32,
    ends: &mut [Span],
) -> Answer
    requires room { (n ≤ entries_most) × (length ends.old ≡ length rows.now) }
    requires fact { Loaded (store_of s.bytes.now) n (length rows.now) rows.now × Complete (length rows.now) order.now }
    requires fact_2 { Explained limit (state_of s.bytes.now) (everything (store_of s.bytes.now)) → ⊥ }
    ensures { result ≡ answer limit (state_of s.entry.bytes.now) }
{
    let scale = claims::keys::get_ends(s, n, ends);
    let mut listed = [0u32; search::ROWS_MOST];
    let free = names::others(state::own(s.bytes));
    let table = Table {
        rows,
        ends,
        order,
        entries: n,
    };
    let left = match table.first_end(&mut listed, limit, free) {
        None => return Answer::Contradicted,
        Some(left) => left,
    };
    mirror(ends);
    let table = Table {
        rows,
        ends,
        order,
        entries: n,
    };
    // Once a left end is explained, a right end is.
    let right = table.first_end(&mut listed, limit, free).unwrap();
    rounded(scale, left.end, claims::keys::LAST - right.end)
}

// The same, with an array for the ends.
fn between(s: InForm<'_>, n: usize, rows: &[Row], order: &[u32], limit: u32) -> Answer
    requires room { n ≤ entries_most }
    requires fact { Loaded (store_of s.bytes.now) n (length rows.now) rows.now × Complete (length rows.now) order.now }
    requires fact_2 { Explained limit (state_of s.bytes.now) (everything (store_of s.bytes.now)) → ⊥ }
    ensures { result ≡ answer limit (state_of s.entry.bytes.now) }
{
    let mut ends = [Span { left: 0, right: 0 }; search::ROWS_MOST];
    between_in(s, n, rows, order, limit, &mut ends[..rows.len()])
}

// The answer over a state in form, with arrays for its claims, of as many rows as there are. What is left in the arrays is free.
fn ask_in(s: InForm<'_>, limit: u32, n: usize, rows: &mut [Row], order: &mut [u32]) -> Answer
    requires count { n ≡ entry_count s.bytes.now }
    requires room { (length rows.old ≡ n + held_count s.bytes.now) × (length order.old ≡ length rows.old) }
    ensures { result ≡ answer limit (state_of s.entry.bytes.now) }
{
    claims::load(s, n, rows, order);
    let free = names::others(state::own(s.bytes));
    let search = Search {
        rows,
        listed: order,
        limit,
        enough: names::NO_SET,
    };
    if search.predicate_step(0, 0, free, names::NO_SET) < names::NO_SET {
        return Answer::Open;
    }
    between(s, n, rows, order, limit)
}

// The same, with room for so many rows. Mostly rows are few: clearing arrays for all of them would take longer than the rest.
fn ask_over<const N: usize>(s: InForm<'_>, limit: u32, n: usize, rows: usize) -> Answer
    requires count { (n ≡ entry_count s.bytes.now) × (rows ≡ n + held_count s.bytes.now) }
    requires room { (rows ≤ N) × (N ≤ rows_most) }
    ensures { result ≡ answer limit (state_of s.entry.bytes.now) }
{
    let mut table = [Row::EMPTY; N];
    let mut order = [0u32; N];
    ask_in(s, limit, n, &mut table[..rows], &mut order[..rows])
}

// Whether the entries tell by themselves that no set within the limit makes all of them true.
pub fn hopeless(s: InForm<'_>, limit: u32) -> bool
    ensures { result ≡ hopeless limit (state_of s.entry.bytes.now) }
{
    !claims::degrees::within(s, state::known(s.bytes), limit)
}

// Whether every claim needs one name at most and there are no more claims than the limit has names: then a set within it makes all of them true.
fn affordable(s: InForm<'_>, rows: usize, limit: u32) -> bool
    requires { rows ≤ entry_count s.bytes.now + held_count s.bytes.now }
    ensures { result ≡ (leb rows limit && all_below rows (degree_within (store_of s.entry.bytes.now) 1)) }
{
    if (limit as usize) < rows {
        return false;
    }
    claims::degrees::within(s, rows, 1)
}

// The answer over a state in form.
// Limits 0 and 1 have ways of their own, and above them four tests come one after the other: a `match` would nest them.
pub fn ask(s: InForm<'_>, limit: u32) -> Answer
    ensures { result ≡ answer limit (state_of s.entry.bytes.now) }
{
    if limit == 0 {
        return plain(s);
    }
    if limit == 1 {
        return super::one::ask_one(s);
    }
    if hopeless(s, limit) {
        return Answer::Contradicted;
    }
    let n = state::known(s.bytes);
    let rows = n + state::held(s.bytes);
    if affordable(s, rows, limit) {
        return Answer::Open;
    }
    if rows <= FEW_ROWS {
        return ask_over::<FEW_ROWS>(s, limit, n, rows);
    }
    ask_over::<{ search::ROWS_MOST }>(s, limit, n, rows)
}
