// One failed name at most: the answer at limit 1 and the name that explains a state alone, without a search. A set of one name makes a predicate true
// where the name is one of its terms, so a mask for each held datum tells all, and one pass over the keys of the ends tells what a name leaves.
ghost use Rattle.std.specs.Prelude.{◌≡◌, Bool, cond, ◌≤◌, ◌<◌, min, max, T, ltb, length, List, IfSome};
ghost use Rattle.std.specs.Int.Count.{ones};
ghost use Rattle.state.specs.Layout.{state_of};
ghost use Rattle.state.specs.Model.{Datum};
ghost use Rattle.names.specs.Sets.{no_set, subset};
ghost use Rattle.search.specs.code.LeftEnds.{no_end, lefts_of, rights_of};
ghost use Rattle.asking.specs.Asking.{active, answer};
ghost use Rattle.asking.specs.code.Plain.{greatest_left, least_right};
ghost use Rattle.asking.specs.code.One.{common_names, all_names, InArrays, Lacking, AtMostOne, Hull, LeastLeaving, FewestOne, or_no_set};

use super::Answer;
use search::rows::Span;
use state::sound::InForm;

// The names that all masks have in common with these.
fn common_names(masks: &[u32], names: u32) -> u32
    ensures { result ≡ common_names names masks.now }
{
    masks
        .iter()
        .fold(names, |left, mask| names::shared(left, *mask))
}

// The names that some mask has.
fn all_names(masks: &[u32]) -> u32
    ensures { result ≡ all_names 0 masks.now }
{
    masks
        .iter()
        .fold(0, |names, mask| names::union(names, *mask))
}

// What the held intervals have in common whose predicate the set, of one name or none, leaves false: from the greatest left end to the least
// right end.
// It is 0 and 2^64 - 1 where no interval is left: an Option would be one case more in each step.
fn span(ends: &[Span], masks: &[u32], set: u32) -> Span
    requires { (length masks.now ≡ length ends.now) × (ones set ≤ 1) }
    ensures { (ds : List Datum) → InArrays ds (lefts_of ends.now) (rights_of ends.now) masks.now
        → (result.left ≡ greatest_left 0 (active set ds)) × (result.right ≡ least_right no_end (active set ds)) }
{
    let mut left: u64 = 0;
    let mut right: u64 = search::NO_END;
    for (i, held) in ends.iter().enumerate() {
        if names::shared(masks[i], set) == 0 {
            left = left.max(held.left);
            right = right.min(held.right);
        }
    }
    Span { left, right }
}

// From the lesser of two left ends to the greater of the right ends, where the second has any instant.
fn widened(a: Span, b: Span) -> Span
    ensures { (result.left ≡ cond (ltb b.right b.left) a.left (min a.left b.left))
        × (result.right ≡ cond (ltb b.right b.left) a.right (max a.right b.right)) }
{
    if b.right < b.left {
        return a;
    }
    Span {
        left: a.left.min(b.left),
        right: a.right.max(b.right),
    }
}

// What was begun, widened by what each of the names leaves.
// No range is gone over: the least name is taken off the mask each time.
fn over_names(ends: &[Span], masks: &[u32], names: u32, begun: Span) -> Span
    requires { length masks.now ≡ length ends.now }
    ensures { (ds : List Datum) → InArrays ds (lefts_of ends.now) (rights_of ends.now) masks.now → Lacking ds names
        → (plain : Bool) → Hull ds (AtMostOne plain 0) begun.left begun.right → Hull ds (AtMostOne plain names) result.left result.right }
{
    let mut widest = begun;
    let mut rest = names;
    while rest != 0 {
        let name = names::least_name(rest);
        widest = widened(widest, span(ends, masks, name));
        rest = names::minus(rest, name);
    }
    widest
}

// All that one name or, where there are no entries, none leaves together; right below left where that is nothing, which `widened` takes as it is (an
// Option would be one case more in each step). Names that no mask has leave what the empty set leaves.
fn widest(ends: &[Span], masks: &[u32], names: u32, plain: bool) -> Span
    requires { (length masks.now ≡ length ends.now) × (0 < length masks.now) }
    ensures { (ds : List Datum) → InArrays ds (lefts_of ends.now) (rights_of ends.now) masks.now → Lacking ds names
        → Hull ds (AtMostOne plain names) result.left result.right }
{
    let some = all_names(masks);
    let mut begun = Span {
        left: search::NO_END,
        right: 0,
    };
    if plain | (names::minus(names, some) != 0) {
        begun = widened(begun, span(ends, masks, 0));
    }
    over_names(ends, masks, names::shared(names, some), begun)
}

// The answer at limit 1 over a state in form.
// The masks alone tell most answers, so they are read before the ends and stand apart from them.
pub(crate) fn ask_one(s: InForm<'_>) -> Answer
    ensures { result ≡ answer 1 (state_of s.entry.bytes.now) }
{
    let n = state::known(s.bytes);
    let h = state::held(s.bytes);
    let names = claims::degrees::deciding_names(s, n);
    if names == 0 {
        return Answer::Contradicted;
    }
    let mut masks = [0u32; state::DATA_MOST];
    let masks = &mut masks[..h];
    claims::degrees::get_singles(s, n, masks);
    if common_names(masks, names) != 0 {
        return Answer::Open;
    }
    let mut ends = [Span { left: 0, right: 0 }; state::DATA_MOST];
    let ends = &mut ends[..h];
    let scale = claims::keys::get_ends(s, 0, ends);
    let ends = widest(ends, masks, names, n == 0);
    if ends.right < ends.left {
        return Answer::Contradicted;
    }
    super::ask::rounded(scale, ends.left, ends.right)
}

// The least of the names that leaves any instant, as a set, if one does.
// No range is gone over: the least name is taken off the mask each time.
fn least_leaving(ends: &[Span], masks: &[u32], names: u32) -> Option<u32>
    requires { length masks.now ≡ length ends.now }
    ensures among { IfSome result (λ name. T (subset name names)) }
    ensures least { (ds : List Datum) → InArrays ds (lefts_of ends.now) (rights_of ends.now) masks.now → LeastLeaving ds names (or_no_set result) }
{
    let mut rest = names;
    while rest != 0 {
        let name = names::least_name(rest);
        let left = span(ends, masks, name);
        if left.left <= left.right {
            return Some(name);
        }
        rest = names::minus(rest, name);
    }
    None
}

// The least name that explains a state in form alone, as a set, if one does.
// Its arrays are its own, as those of `ask_one` are, so its first lines stand there too.
pub fn fewest_one(s: InForm<'_>) -> Option<u32>
    ensures fact { FewestOne (state_of s.entry.bytes.now) (or_no_set result) }
    ensures some { IfSome result (λ name. name < no_set) }
{
    let n = state::known(s.bytes);
    let h = state::held(s.bytes);
    let names = claims::degrees::deciding_names(s, n);
    if names == 0 {
        return None;
    }
    let mut masks = [0u32; state::DATA_MOST];
    let masks = &mut masks[..h];
    claims::degrees::get_singles(s, n, masks);
    let mut ends = [Span { left: 0, right: 0 }; state::DATA_MOST];
    let ends = &mut ends[..h];
    claims::keys::get_ends(s, 0, ends);
    least_leaving(ends, masks, names)
}
