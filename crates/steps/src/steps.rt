// The four steps of receiving, on the held data in rows and the entries in a table. The new datum has the ends `new` and the terms p, apart, since
// step 3 gives it other ends under the same terms.
ghost use Rattle.std.specs.Prelude.{Bool, ◌≡◌, ◌&&◌, ◌||◌, cond, ◌++◌, ℕ, ◌+◌, ◌≤◌, ◌<◌, ltb, length, get_or, All, map, position};
ghost use Rattle.std.specs.List.{list_any};
ghost use Rattle.predicates.specs.Predicates.{normal};
ghost use Rattle.ends.specs.Ends.{count_of, BothSplit};
ghost use Rattle.state.specs.Model.{Datum};
ghost use Rattle.state.specs.Layout.{datum_terms};
ghost use Rattle.state.specs.code.Tables.{HeldFits, terms_of, has_terms, datum_of, datum_in, data_in};
ghost use Rattle.entries.specs.Entries.{explained, learn};
ghost use Rattle.entries.specs.code.Rows.{known, standing, Room, Kept};
ghost use Rattle.state.specs.declared.holding.Held.{Held};
ghost use Rattle.steps.specs.code.Rows.{given_up_if, first_given_up};
ghost use Rattle.steps.specs.Steps.{disjoint, learnt};
ghost use Rattle.steps.specs.Steps.{same, met, without, betters};

use ends::Ends;
use entries::tables::{Entries, Standing};
use state::holding::Held;

// Whether two intervals have no instant in common. The whole microseconds nearly always tell that they have one.
fn disjoint(a: Ends, b: Ends) -> bool
    requires { BothSplit a × BothSplit b }
    ensures { result ≡ (ltb (count_of a.right) (count_of b.left) || ltb (count_of b.right) (count_of a.left)) }
{
    if (b.left.whole < a.right.whole) & (a.left.whole < b.right.whole) {
        return false;
    }
    ends::precedes(a.right, b.left) | ends::precedes(b.right, a.left)
}

// Step 1 for one held datum, with the ends `old` under q: where the intervals are disjoint, the sum of both predicates is learnt.
fn learn_from(old: Ends, q: &[u32], new: Ends, p: &[u32], entries: &mut Entries<'_>)
    requires room { Room 1 entries.old }
    requires q_len_bound { (length q.now ≤ datum_terms) × (0 < length p.now) × (length p.now ≤ datum_terms) }
    requires both_split { BothSplit old × BothSplit new }
    ensures kept { Kept entries.old entries.new × (entries.new.n ≤ entries.old.n + 1) }
    ensures entries_after { (let d : Datum = datum_of old q.now in
        let new : Datum = datum_of new p.now in
        known entries.new ≡ cond (disjoint d new) (learn (normal (d.terms ++ new.terms)) (known entries.old)) (known entries.old)) }
{
    if disjoint(old, new) {
        entries.learn_sum(q, p);
    }
}

// Step 1: what the new datum and the held data teach, oldest first. What stands in the arrays of the entries for rows without terms, and behind the
// last row, is free.
pub fn learn_all(held: &[Held], new: Ends, p: &[u32], entries: &mut Entries<'_>)
    requires fit { All HeldFits held.now × BothSplit new }
    requires room { Room (length held.now) entries.old }
    requires p_nonzero { (0 < length p.now) × (length p.now ≤ datum_terms) }
    ensures kept { Kept entries.old entries.new × (entries.new.n ≤ entries.old.n + length held.now) }
    ensures entries_after { known entries.new ≡ learnt (datum_of new p.now) (map datum_in held.now) (known entries.old) }
{
    for row in held {
        learn_from(row.ends, row.terms(), new, p, entries);
    }
}

// Gives up the rows that pass a test, which looks at these rows.
fn give_up<F: Fn(&Held) -> bool>(held: &mut [Held], test: F)
    requires { (i : ℕ) (d : Held) (r : _) → i < length held.old → r.now ≡ get_or held.old i d → F.pre test r }
    ensures { (t : Held → Bool)
        → ((i : ℕ) (d : Held) (r : _) (b : Bool) → i < length held.old → r.now ≡ get_or held.old i d → F.post test r b → b ≡ t r.now)
        → held.new ≡ map (λ r. given_up_if (t r) r) held.old }
{
    for row in held.iter_mut() {
        if test(row) {
            row.count = 0;
        }
    }
}

// Step 2: held data whose predicate is implied by one entry go. It looks at no ends.
pub fn drop_explained(held: &mut [Held], entries: &Standing<'_>)
    requires { All (λ r. r.count ≤ datum_terms) held.old }
    ensures { held.new ≡ map (λ r. given_up_if (explained (standing entries.now) (terms_of r)) r) held.old }
{
    give_up(held, |row| entries.explained(row.terms()));
}

// Whether p and q are the same list of terms.
fn same(p: &[u32], q: &[u32]) -> bool
    ensures { result ≡ same p.now q.now }
{
    p == q
}

// The first row of the held data with the predicate p.
fn find_same(held: &[Held], p: &[u32]) -> Option<usize>
    requires { All HeldFits held.now }
    ensures { result ≡ position (λ r. same (terms_of r) p.now) held.now }
{
    held.iter().position(|row| same(row.terms(), p))
}

// Step 3: the oldest held datum with the predicate p is given up, and the ends of the new one become those of the intersection.
pub fn meet(held: &mut [Held], new: Ends, p: &[u32]) -> Ends
    requires { All HeldFits held.old × BothSplit new × (0 < length p.now) }
    ensures fact { (datum_of result p.now ≡ met (datum_of new p.now) (data_in held.old)) × BothSplit result }
    ensures data_after { data_in held.new ≡ without p.now (data_in held.old) }
    ensures held_after { held.new ≡ first_given_up (λ r. same (terms_of r) p.now) held.old }
{
    match find_same(held, p) {
        None => new,
        Some(i) => {
            let old = held[i].ends;
            held[i].count = 0;
            Ends {
                left: ends::later(old.left, new.left),
                right: ends::earlier(old.right, new.right),
            }
        }
    }
}

// Whether a datum with the ends a under q betters one with the ends b under p (rule 14). Where an end lies beyond the other's, the whole microseconds
// nearly always tell.
fn betters(a: Ends, q: &[u32], b: Ends, p: &[u32]) -> bool
    requires { BothSplit a × BothSplit b }
    ensures { result ≡ betters (datum_of a q.now) (datum_of b p.now) }
{
    if (a.left.whole < b.left.whole) | (b.right.whole < a.right.whole) {
        return false;
    }
    if !ends::precedes(a.left, b.left) & !ends::precedes(b.right, a.right) {
        return predicates::implies(q, p);
    }
    false
}

// Step 4, first half: whether a held datum betters the new one.
pub fn bettered(held: &[Held], new: Ends, p: &[u32]) -> bool
    requires { All HeldFits held.now × BothSplit new }
    ensures { result ≡ list_any (λ d. betters d (datum_of new p.now)) (data_in held.now) }
{
    held.iter().any(|row| row.is_live() && betters(row.ends, row.terms(), new, p))
}

// Step 4, second half: held data that the new one betters go.
pub fn drop_bettered(held: &mut [Held], new: Ends, p: &[u32])
    requires { All HeldFits held.old × BothSplit new }
    ensures { held.new ≡ map (λ r. given_up_if (betters (datum_of new p.now) (datum_in r)) r) held.old }
{
    give_up(held, |row| betters(new, p, row.ends, row.terms()));
}
