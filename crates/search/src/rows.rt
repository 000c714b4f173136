// Predicates as rows of an array, and the ends of the claims that they belong to.
ghost use Rattle.std.specs.Prelude.{◌≡◌, List, ℕ, ◌+◌, ◌≤◌, cond, length};
ghost use Rattle.std.specs.Int.Count.{ones};
ghost use Rattle.names.specs.Sets.{subset};
ghost use Rattle.names.specs.code.Parts.{shared};
ghost use Rattle.predicates.specs.Predicates.{holds};
ghost use Rattle.search.specs.code.Search.{row_width, terms_of, rests_of, PartedRow, gather, alone};

// A predicate: how many terms it has, how many of them have several names, the others as one mask, and the terms, those of several names last. What
// stands behind the terms is free.
// There is no heap, so the counts stand beside the terms.
#[derive(Clone, Copy)]
pub struct Row {
    pub count: u32,
    pub several: u32,
    pub singles: u32,
    pub terms: [u32; super::ROW_WIDTH],
}

// The ends of a claim, or others: from one key to another, in order or not.
#[derive(Clone, Copy)]
pub struct Span {
    pub left: u64,
    pub right: u64,
}

// Of the names those that are in `base` or alone, beside the set, make the terms' sum true; all of them where the set makes it true: where a term
// adds no name to it.
fn narrow_terms(p: &[u32], set: u32, base: u32, names: u32) -> u32
    ensures { result ≡ cond (holds set p.now) names (shared names (gather base (ones set + 1) set p.now)) }
{
    let mut does = base;
    for i in (0..p.len()).rev() {
        let t = p[i];
        let added = names::minus(t, set);
        if added == 0 {
            return names;
        }
        if names::count(added) == 1 {
            does = names::union(names::union(set, t), does);
        }
    }
    names::shared(names, does)
}

impl Row {
    // A row of no terms, which is false.
    pub const EMPTY: Row = Row {
        count: 0,
        several: 0,
        singles: 0,
        terms: [0; super::ROW_WIDTH],
    };

    // The terms of the predicate.
    pub fn terms(&self) -> &[u32]
        requires { PartedRow self.now }
        ensures { result.now ≡ terms_of self.now }
    {
        &self.terms[..self.count as usize]
    }

    // The terms of several names.
    fn rest(&self) -> &[u32]
        requires { PartedRow self.now }
        ensures { result.now ≡ rests_of self.now }
    {
        &self.terms[(self.count - self.several) as usize..self.count as usize]
    }

    // Whether the set makes the predicate true: it has a name that is a term, or one of the terms of several names.
    // It is not `holds_by_mark` of predicates: `singles` is the mark of the whole row, and not of the rest.
    pub fn holds(&self, set: u32) -> bool
        requires { PartedRow self.now }
        ensures { result ≡ holds set (terms_of self.now) }
    {
        if 0 < names::shared(set, self.singles) {
            return true;
        }
        predicates::holds(self.rest(), set)
    }

    // Of the names those that alone, beside the set, make the predicate true; all of them where the set makes it true.
    pub fn narrow(&self, set: u32, names: u32) -> u32
        requires { PartedRow self.now }
        ensures { result ≡ cond (holds set (terms_of self.now)) names (shared names (alone (ones set + 1) set (terms_of self.now))) }
    {
        if 0 < names::shared(set, self.singles) {
            return names;
        }
        narrow_terms(self.rest(), set, names::union(set, self.singles), names)
    }
}
