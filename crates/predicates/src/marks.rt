// A predicate's mark: the names that each make it true alone, as one mask. Marks tell nearly all pairs of predicates apart at once, so they are
// worth making where many are held against each other.
ghost use Rattle.std.specs.Prelude.{◌≡◌, false, [], ◌∷◌};
ghost use Rattle.names.specs.Sets.{subset};
ghost use Rattle.predicates.specs.Predicates.{holds, implies};
ghost use Rattle.predicates.specs.code.Marks.{singles, mark_of, Apart};
ghost use Rattle.std.specs.List.{list_any};

// The mark of p: the names that each make it true alone, or all that a mask can hold where it is true whatever has failed.
#[tactic(auto, unfolding(crate::specs::code::Marks::mark_of))]
pub fn mark_of(p: &[u32]) -> u32
    ensures { result ≡ mark_of p.now }
{
    if super::holds(p, 0) {
        return u32::MAX;
    }
    names_alone(p)
}

// A term of one name; no names in place of any other.
fn alone(t: u32) -> u32
    ensures { result ≡ singles (t ∷ []) }
{
    if names::at_most_one(t) { t } else { 0 }
}

// The names of the terms of one name: the mark of a predicate without the empty term. Zeros behind the terms count for nothing, so that a whole row
// can be handed in, which is faster than to look for its end.
pub fn names_alone(p: &[u32]) -> u32
    ensures { result ≡ singles p.now }
{
    p.iter().fold(0, |names, t| names::union(names, alone(*t)))
}

// Whether a predicate may imply one whose mark is `bound`, by its own mark: it does not where that has a name more. One that is always true is
// implied by all, and every mark lies within its own.
pub fn may_imply(mark: u32, bound: u32) -> bool
    ensures { (result ≡ subset mark bound) × (result ≡ false → Apart mark bound) }
{
    names::subset(mark, bound)
}

// Whether a predicate of one of these marks may imply one whose mark is `bound`. All are looked at: that is faster than to stop.
pub fn any_may_imply(marks: &[u32], bound: u32) -> bool
    ensures { result ≡ list_any (λ m. subset m bound) marks.now }
{
    let mut some = false;
    for m in marks {
        some |= names::subset(*m, bound);
    }
    some
}

// Whether the set s makes p true; p's mark is given.
fn holds_by_mark(p: &[u32], mark: u32, s: u32) -> bool
    requires { mark ≡ mark_of p.now }
    ensures { result ≡ holds s p.now }
{
    if names::shared(s, mark) != 0 {
        return true;
    }
    super::holds(p, s)
}

// Whether p implies q; q's mark is given.
#[tactic(auto, unfolding(crate::specs::Predicates::implies))]
pub fn implies_by_mark(p: &[u32], q: &[u32], bound: u32) -> bool
    requires { bound ≡ mark_of q.now }
    ensures { result ≡ implies p.now q.now }
{
    p.iter().all(|t| holds_by_mark(q, bound, *t))
}
