// A test of each of the first places of a state's bytes.
ghost use Rattle.std.specs.Prelude.{ℕ, Bool, ◌≡◌, ◌<◌};
ghost use Rattle.predicates.specs.Lists.{all_below};

// Whether the test passes at each place below n. It goes through all of them, since an exit in the loop would cost more than it saves.
pub fn each<F: Fn(usize) -> bool>(n: usize, passes: F) -> bool
    requires { (i : ℕ) → i < n → F.pre passes i }
    ensures { (test : ℕ → Bool) → ((i : ℕ) (b : Bool) → i < n → F.post passes i b → b ≡ test i) → result ≡ all_below n test }
{
    let mut ok = true;
    for i in 0..n {
        ok = ok & passes(i);
    }
    ok
}
