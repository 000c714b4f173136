// A predicate in which names count as failed, in place.
ghost use Rattle.std.specs.Prelude.{◌≡◌, map, ◌≤◌, T, eqb, length};
ghost use Rattle.names.specs.Sets.{minus};
ghost use Rattle.names.specs.code.Parts.{shared};
ghost use Rattle.std.specs.List.{list_all};
ghost use Rattle.predicates.specs.Lists.{padded};
ghost use Rattle.predicates.specs.Predicates.{is_normal};
ghost use Rattle.epochs.specs.Epochs.{withdraw};

// Whether no term has a name of r.
fn untouched(p: &[u32], r: u32) -> bool
    ensures { result ≡ list_all (λ t. eqb (shared t r) 0) p.now }
{
    p.iter().all(|t| names::shared(*t, r) == 0)
}

// Takes the names of r out of the terms.
fn take_out(terms: &mut [u32], r: u32)
    ensures { terms.new ≡ map (λ t. minus t r) terms.old }
{
    for t in terms.iter_mut() {
        *t = names::minus(*t, r);
    }
}

// Counts the names of r as failed in the terms, which are in normal form, and makes what is left their normal form, with zeros in the places given
// up. Answers how many terms there are. A predicate that names none of them stays as it is; one of which a term is left empty is true, and that
// term alone is its normal form.
pub fn withdraw(terms: &mut [u32], r: u32) -> usize
    requires { T (is_normal terms.old) }
    ensures value { (result ≡ length (withdraw r terms.old)) × (result ≤ length terms.old) }
    ensures terms_after { terms.new ≡ padded (length terms.old) (withdraw r terms.old) }
{
    if untouched(terms, r) {
        return terms.len();
    }
    take_out(terms, r);
    if predicates::holds(terms, 0) {
        terms.fill(0);
        return 1;
    }
    predicates::normal::normal_form(terms)
}
