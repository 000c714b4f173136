// In form (document 01, "State bytes"), tested on the bytes: each call makes this test before it reads anything else.
ghost use Rattle.std.specs.Prelude.{◌≡◌, ◌&&◌, ◌+◌, ◌*◌, ◌≤◌, ◌<◌, length, eqb};
ghost use Rattle.std.specs.List.{list_all};
ghost use Rattle.refusals.specs.Refusals.{number};
ghost use Rattle.predicates.specs.Lists.{all_below};
ghost use Rattle.predicates.specs.Predicates.{is_normal};
ghost use Rattle.state.specs.Layout.{state_size, data_most, entries_most, entry_terms, datum_place, entry_place};
ghost use Rattle.state.specs.Refusal.{lent};
ghost use Rattle.state.specs.Form.{term_fits, is_zero, row_fits, datum_fits, entry_fits, head_fits, clocks_fit, in_form};

use refusals::Refusal;

// Whether each byte is zero: all are or-ed together, since an exit in the loop would cost more than it saves.
fn is_zero(s: &[u8]) -> bool
    ensures { result ≡ list_all (λ b. eqb b 0) s.now }
{
    s.iter().fold(0, |v, b| v | *b) == 0
}

// Whether each mask is zero: the same of another type, which a trait for both would not say in fewer lines.
fn all_zero(p: &[u32]) -> bool
    ensures { result ≡ list_all (λ t. eqb t 0) p.now }
{
    p.iter().fold(0, |v, t| v | *t) == 0
}

// Whether p is in normal form and each of its terms has a name, none above 28 and not the own one. From the last term on each is below the one
// behind it, and lies in none of those: of masks that rise only an earlier one can lie in a later one. A term with a name that is not among those
// behind it (`all`) lies in none of them, which nearly always decides.
// It begins at 2^29, above every mask.
fn terms_fit(p: &[u32], own: u32) -> bool
    requires { own < 32 }
    ensures { result ≡ (is_normal p.now && list_all (term_fits own) p.now) }
{
    let mut next: u32 = names::NO_SET;
    let mut all: u32 = 0;
    for i in (0..p.len()).rev() {
        let t = p[i];
        if next <= t {
            return false;
        }
        if names::subset(t, all) && predicates::contained(t, &p[i + 1..]) {
            return false;
        }
        all = names::union(all, t);
        next = t;
    }
    (0 < next) & !names::has(own, all)
}

// Whether the row at `at` fits: its count, the terms in use, and zeros behind them.
fn row_fits(s: &[u8], at: usize, width: usize, own: u32) -> bool
    requires { (width ≤ entry_terms) × (at + 4 + width * 4 ≤ length s.now) × (own < 32) }
    ensures { result ≡ row_fits own width at s.now }
{
    let n = numbers::get32(s, at) as usize;
    if n < 1 || width < n {
        return false;
    }
    let mut row = [0u32; super::ENTRY_TERMS];
    numbers::get_words(s, at + 4, &mut row[..width]);
    terms_fit(&row[..n], own) & all_zero(&row[n..width])
}

// Whether the datum in place i fits.
#[tactic(auto, using(crate::proofs::FormLaws::datum_tests))]
fn datum_fits(s: &[u8], i: usize, own: u32) -> bool
    requires { (i < data_most) × (own < 32) × (state_size ≤ length s.now) }
    ensures { result ≡ datum_fits own s.now i }
{
    let ends = super::intervals::get(s, i);
    if ends::MILLION <= ends.left.millionths {
        return false;
    }
    if ends::MILLION <= ends.right.millionths {
        return false;
    }
    let at = super::DATA_AT + i * super::DATUM_SIZE;
    super::intervals::ordered(ends) & row_fits(s, at + super::ROW_IN, super::DATUM_TERMS, own)
}

// Whether the entry in place i fits.
#[tactic(auto, unfolding(crate::specs::Form::entry_fits))]
fn entry_fits(s: &[u8], i: usize, own: u32) -> bool
    requires { (i < entries_most) × (own < 32) × (state_size ≤ length s.now) }
    ensures { result ≡ entry_fits own s.now i }
{
    row_fits(
        s,
        super::ENTRIES_AT + i * super::ENTRY_SIZE,
        super::ENTRY_TERMS,
        own,
    )
}

// Whether own name, drift, reading and the two counts are in their ranges.
#[tactic(auto, unfolding(crate::specs::Form::head_fits))]
fn head_fits(s: &[u8]) -> bool
    requires { state_size ≤ length s.now }
    ensures { result ≡ head_fits s.now }
{
    (super::own(s) <= super::NAME_MOST)
        & ((super::drift(s) <= super::DRIFT_MOST)
            & ((super::reading(s) < super::READING_LIMIT)
                & ((super::held(s) <= super::DATA_MOST)
                    & (super::known(s) <= super::ENTRIES_MOST))))
}

// Whether the first n data fit, and the places behind them are zero. This and the next differ in a test and three places: one function would have
// more parameters than lines.
fn data_fit(s: &[u8], own: u32, n: usize) -> bool
    requires { (n ≤ data_most) × (own < 32) × (state_size ≤ length s.now) }
    ensures { result ≡ all_below n (datum_fits own s.now) && is_zero (datum_place n) (datum_place data_most) s.now }
{
    super::places::each(n, |i| datum_fits(s, i, own))
        & is_zero(&s[super::DATA_AT + n * super::DATUM_SIZE..super::DATA_END])
}

// Whether the first n entries fit, and the places behind them are zero.
fn entries_fit(s: &[u8], own: u32, n: usize) -> bool
    requires { (n ≤ entries_most) × (own < 32) × (state_size ≤ length s.now) }
    ensures { result ≡ all_below n (entry_fits own s.now) && is_zero (entry_place n) (entry_place entries_most) s.now }
{
    super::places::each(n, |i| entry_fits(s, i, own))
        & is_zero(&s[super::ENTRIES_AT + n * super::ENTRY_SIZE..super::CLOCKS_AT])
}

// Whether the place of each name's clock fits.
fn clocks_fit(s: &[u8]) -> bool
    requires { state_size ≤ length s.now }
    ensures { result ≡ clocks_fit s.now }
{
    super::places::each(super::CLOCKS_MOST, |i| {
        clocks::place::fits(s, super::CLOCKS_AT + i * clocks::place::PLACE_SIZE)
    })
}

// Whether the state at the front of s is in form.
fn in_form(s: &[u8]) -> bool
    requires { state_size ≤ length s.now }
    ensures { result ≡ in_form s.now }
{
    if !head_fits(s) {
        return false;
    }
    let own = super::own(s);
    data_fit(s, own, super::held(s))
        & (entries_fit(s, own, super::known(s))
            & (clocks_fit(s) & epochs::known::fits(s, super::EPOCHS_AT)))
}

// The first tests of every call on a lent state: whether it is long enough, and then whether it is in form.
#[tactic(auto, unfolding(crate::specs::Refusal::lent))]
pub fn check(s: &[u8]) -> Result<(), Refusal>
    ensures { number result ≡ lent s.now 0 }
{
    if s.len() < super::STATE_SIZE {
        return Err(Refusal::Buffer);
    }
    if !in_form(s) {
        return Err(Refusal::StateForm);
    }
    Ok(())
}
