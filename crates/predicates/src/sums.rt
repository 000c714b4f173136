// Predicates made from others, in a lent array: struck, two together, and what a receiver forms.
ghost use Rattle.std.specs.Prelude.{◌≡◌, ◌++◌, ◌+◌, ◌-◌, ◌<◌, ◌≤◌, length, take, drop, set, get_or};
ghost use Rattle.std.proofs.lemmas.List.Edits.{sets};
ghost use Rattle.predicates.specs.Lists.{padded};
ghost use Rattle.predicates.specs.Predicates.{formed as the_formed, struck};

use super::sift::sift;

// Strikes out the terms that name `name`, with zeros in the places given up. Answers how many are left.
fn strike(terms: &mut [u32], name: u32) -> usize
    requires { name < 32 }
    ensures value { (result ≡ length (struck name terms.old)) × (result ≤ length terms.old) }
    ensures terms_after { terms.new ≡ padded (length terms.old) (struck name terms.old) }
{
    sift(terms, |_, t| names::has(name, t))
}

// Copies p, terms or words, to the places from `at` on. `copy_from_slice` of a length that is not known beforehand would call `memmove`, and the
// archive needs no more of a C program than `memcpy` and `memset`.
pub fn copy(terms: &mut [u32], at: usize, p: &[u32])
    requires { at + length p.now ≤ length terms.old }
    ensures { terms.new ≡ sets terms.old at p.now }
{
    for (i, t) in p.iter().enumerate() {
        terms[at + i] = *t;
    }
}

// Puts p, and q behind it, at the front of `terms`. Answers how many terms both have.
pub fn both(terms: &mut [u32], p: &[u32], q: &[u32]) -> usize
    requires { length p.now + length q.now ≤ length terms.old }
    ensures value { result ≡ length p.now + length q.now }
    ensures terms_after { terms.new ≡ (p.now ++ q.now) ++ drop result terms.old }
{
    let n = p.len();
    copy(terms, 0, p);
    copy(terms, n, q);
    n + q.len()
}

// Makes of a sender's predicate, which is all of `terms` but the last place, what the receiver `own` forms of it; the places left over are zero.
// Answers how many terms it has.
pub fn form(terms: &mut [u32], own: u32, sender: u32) -> usize
    requires { (0 < length terms.old) × (own < 32) × (sender < 32) }
    ensures value { (result ≡ length (the_formed own sender (take (length terms.old - 1) terms.old))) × (result ≤ length terms.old) }
    ensures terms_after { terms.new ≡ padded (length terms.old) (the_formed own sender (take (length terms.old - 1) terms.old)) }
{
    let last = terms.len() - 1;
    terms[last] = 0;
    let kept = strike(&mut terms[..last], own);
    terms[kept] = names::single(sender);
    super::normal::normal_form(&mut terms[..kept + 1])
}
