// The search for a set of failed names that makes predicates true (document 01, "Fewest failures"): from an unexplained predicate to its terms, from
// a term to the next unexplained predicate. It stops at the first set below `enough`; else it goes on to the least.
ghost use Rattle.std.specs.Prelude.{◌≡◌, List, ◌∷◌, ◌&&◌, not, cond, ℕ, ◌+◌, ◌≤◌, ◌<◌, min, T, eqb, leb, ltb, length, get_or, drop};
ghost use Rattle.std.specs.Int.Count.{ones};
ghost use Rattle.names.specs.Sets.{subset, set_union, minus};
ghost use Rattle.std.specs.List.{list_all};
ghost use Rattle.predicates.specs.Predicates.{holds};
ghost use Rattle.search.specs.code.Search.{Best, RowsFit, pred_at, all_preds, skipped};

use super::rows::Row;

// What is searched: rows, in the order in which they are listed, for a set within the limit; at a set below `enough` the search may stop.
#[derive(Clone, Copy)]
pub struct Search<'a> {
    pub rows: &'a [Row],
    pub listed: &'a [u32],
    pub limit: u32,
    pub enough: u32,
    pub ghost fit: { RowsFit (length listed.now) listed.now rows.now },
}

// Whether a term may lead to a set below `best`: its names are in the set or free, and joined with the set they are within the limit.
pub(crate) fn worth(t: u32, set: u32, free: u32, limit: u32, best: u32) -> bool
    ensures { result ≡ subset t (set_union set free) && (ltb (set_union set t) best && leb (ones (set_union set t)) limit) }
{
    let wider = names::union(set, t);
    if !names::subset(t, names::union(set, free)) {
        return false;
    }
    if best <= wider {
        return false;
    }
    names::count(wider) <= limit
}

// What is free once a term was tried: where it adds one name to the set, that name no more.
pub(crate) fn freed(t: u32, set: u32, free: u32) -> u32
    ensures { result ≡ cond (eqb (ones (set_union set t)) (ones set + 1)) (minus free t) free }
{
    if names::count(names::minus(t, set)) == 1 {
        return names::minus(free, t);
    }
    free
}

impl<'a> Search<'a> {
    // The place of the next predicate from i on that the set leaves false; the number of places where there is none: an Option was measured to be
    // slower in the recursion.
    fn next_unexplained(&self, i: usize, set: u32) -> usize
        requires { i ≤ length self.now.listed.now }
        ensures { (let ps : List (List ℕ) = all_preds self.now.listed.now self.now.rows.now in
            (i ≤ result) × (result ≤ length self.now.listed.now) × (drop result ps ≡ skipped set (drop i ps))) }
    {
        for k in i..self.listed.len() {
            if !self.rows[self.listed[k] as usize].holds(set) {
                return k;
            }
        }
        self.listed.len()
    }

    // The lesser of `best` and a set that alone is left to try, if that makes the predicates from j on true.
    fn only_set(&self, j: usize, set: u32, best: u32) -> u32
        requires { j ≤ length self.now.listed.now }
        ensures { (let ps : List (List ℕ) = all_preds self.now.listed.now self.now.rows.now in
            result ≡ cond (list_all (holds set) (drop j ps)) (min set best) best) }
    {
        if self.next_unexplained(j, set) < self.listed.len() {
            return best;
        }
        set.min(best)
    }

    // With one name left to add: the least set that makes the predicates from k on true, or `best`. Once a single name is left it is tried as it is:
    // to test a set costs less than to narrow.
    fn last_name(&self, k: usize, set: u32, free: u32, best: u32) -> u32
        requires { (k < length self.now.listed.now) × (ones set + 1 ≡ self.now.limit)
            × T (not (holds set (pred_at self.now.listed.now self.now.rows.now k))) }
        ensures { (let ps : List (List ℕ) = all_preds self.now.listed.now self.now.rows.now in
            ((enough : ℕ) → Best enough self.now.limit set free (drop k ps) best result)) }
    {
        let mut names = names::union(set, free);
        for j in k..self.listed.len() {
            if names == set {
                return best;
            }
            let rest = names::minus(names, set);
            if names::at_most_one(rest) {
                return self.only_set(j, names::union(set, rest), best);
            }
            names = self.rows[self.listed[j] as usize].narrow(set, names);
        }
        if names == set {
            return best;
        }
        names::union(set, names::least_name(names::minus(names, set))).min(best)
    }

    // The best of the sets that make the predicates from i on true, from `set` on with names that are free. No set is 2^29 here, not None: an enum
    // that is handed back took the search, tried before it was proved, nearly three times as long.
    #[cycle(predicate_step_term_step)]
    pub fn predicate_step(&self, i: usize, set: u32, free: u32, best: u32) -> u32
        requires { (i ≤ length self.now.listed.now) × (ones set ≤ self.now.limit) }
        ensures { (let ps : List (List ℕ) = all_preds self.now.listed.now self.now.rows.now in
            Best self.now.enough self.now.limit set free (drop i ps) best result) }
    {
        let k = self.next_unexplained(i, set);
        if self.listed.len() <= k {
            return set.min(best);
        }
        let size = names::count(set);
        if self.limit <= size {
            return best;
        }
        if self.limit == size + 1 {
            return self.last_name(k, set, free, best);
        }
        self.term_step(
            k,
            self.rows[self.listed[k] as usize].terms(),
            set,
            free,
            best,
        )
    }

    // The best of the sets that hold one of the terms and make the predicates after i true.
    #[cycle(predicate_step_term_step)]
    fn term_step(&self, i: usize, terms: &[u32], set: u32, free: u32, best: u32) -> u32
        requires { (i < length self.now.listed.now) × (ones set ≤ self.now.limit) }
        ensures { (let ps : List (List ℕ) = all_preds self.now.listed.now self.now.rows.now in
            Best self.now.enough self.now.limit set free (terms.now ∷ drop (i + 1) ps) best result) }
    {
        let mut rest = free;
        let mut found = best;
        for t in terms {
            if worth(*t, set, rest, self.limit, found) {
                found = self.predicate_step(i + 1, names::union(set, *t), rest, found);
                if found < self.enough {
                    return found;
                }
                rest = freed(*t, set, rest);
            }
        }
        found
    }
}
