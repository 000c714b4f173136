// Predicates over failed names (document 01, "Instants, names, predicates"): a predicate is a slice of masks, its terms.
// Every function here is proved, and the crate assumes nothing of its own.
#![tactic(auto)]

pub mod marks;
pub mod normal;
mod sift;
pub mod sums;

ghost use Rattle.std.specs.Prelude.{◌≡◌};
ghost use Rattle.names.specs.Sets.{subset};
ghost use Rattle.std.specs.List.{list_any, list_all};
ghost use Rattle.predicates.specs.Predicates.{holds, implies};
ghost use Rattle.predicates.specs.Predicates.{precedes, is_normal};

// The degree of false, which has no terms: above every count of names.
pub const DEGREE_OF_FALSE: u32 = 30;

// Whether the set s makes p true.
#[tactic(auto, unfolding(crate::specs::Predicates::holds))]
pub fn holds(p: &[u32], s: u32) -> bool
    ensures { result ≡ holds s p.now }
{
    for t in p {
        if names::subset(*t, s) {
            return true;
        }
    }
    false
}

// Whether p implies q.
#[tactic(auto, unfolding(crate::specs::Predicates::implies))]
pub fn implies(p: &[u32], q: &[u32]) -> bool
    ensures { result ≡ implies p.now q.now }
{
    p.iter().all(|t| holds(q, *t))
}

// Whether a term of p contains t.
pub fn contained(t: u32, p: &[u32]) -> bool
    ensures { result ≡ list_any (λ u. subset t u) p.now }
{
    p.iter().any(|u| names::subset(t, *u))
}

// Whether t may stand before each term of p. Predicates are short: to stop at the first that fails is faster than to carry the test along.
#[tactic(auto, unfolding(crate::specs::Predicates::precedes))]
fn precedes_all(t: u32, p: &[u32]) -> bool
    ensures { result ≡ list_all (λ u. precedes t u) p.now }
{
    for u in p {
        if *u <= t || names::subset(t, *u) {
            return false;
        }
    }
    true
}

// Whether p is in normal form. Every message that is read goes through this loop and the one above: they are the dearest of reading.
pub fn is_normal(p: &[u32]) -> bool
    ensures { result ≡ is_normal p.now }
{
    for i in 0..p.len() {
        if !precedes_all(p[i], &p[i + 1..]) {
            return false;
        }
    }
    true
}
