// Terms that are struck out in place: those that stay move up, and zeros stand behind them.
ghost use Rattle.std.specs.Prelude.{◌≡◌, [], List, ℕ, Bool, ◌<◌, ◌≤◌, length, set, get_or};
ghost use Rattle.predicates.specs.Lists.{padded};
ghost use Rattle.predicates.specs.code.Sifts.{sifted, Tells};

// Moves the term at i up to the place `to`, and leaves a zero. Where it stands there already, which is the usual case, nothing is written: what is
// written is read again at once, and would have to be waited for.
fn move_up(terms: &mut [u32], to: usize, i: usize)
    requires { (to ≤ i) × (i < length terms.old) }
    ensures { terms.new ≡ set (set terms.old i 0) to (get_or terms.old i 0) }
{
    if to < i {
        let t = terms[i];
        terms[i] = 0;
        terms[to] = t;
    }
}

// Strikes out the terms of which `strikes` says so, by the terms kept before them, with zeros in the places given up. Answers how many are left.
pub(crate) fn sift<F: Fn(&[u32], u32) -> bool>(terms: &mut [u32], strikes: F) -> usize
    requires { F.IsAlwaysCallable strikes }
    ensures within { result ≤ length terms.old }
    ensures value { (test : List ℕ → ℕ → Bool) → Tells (F.post strikes) test → result ≡ length (sifted test [] terms.old) }
    ensures terms_after { (test : List ℕ → ℕ → Bool) → Tells (F.post strikes) test
        → terms.new ≡ padded (length terms.old) (sifted test [] terms.old) }
{
    let mut kept: usize = 0;
    for i in 0..terms.len() {
        let t = terms[i];
        if strikes(&terms[..kept], t) {
            terms[i] = 0;
        } else {
            move_up(terms, kept, i);
            kept += 1;
        }
    }
    kept
}
