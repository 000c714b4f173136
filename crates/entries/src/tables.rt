// Entries as a receipt works on them, in arrays that a caller lends: row i has its count of terms at i. The rows below `first` have their terms in
// the state's bytes, where they stay; the terms of those from `first` on, learnt in this receipt, stand in an array, 16 places a row. A row without
// terms has been given up. The names that make a row true alone are its mark, at i. What stands in the arrays for rows without terms, and behind the
// last row, is free. The arrays stay flat: a row below `first` has a count and a mark, and no terms among the masks.
ghost use Rattle.std.specs.Prelude.{◌≡◌, true, false, ◌&&◌, List, [], ◌∷◌, ◌++◌, ℕ, ◌+◌, ◌*◌, ◌≤◌, ◌<◌, length, get_or, set, take, drop, T};
ghost use Rattle.std.proofs.lemmas.List.Edits.{sets};
ghost use Rattle.numbers.specs.Numbers.{num, tab};
ghost use Rattle.predicates.specs.Predicates.{implies, normal};
ghost use Rattle.predicates.specs.code.Marks.{mark_of, Apart};
ghost use Rattle.state.specs.Layout.{state_size, entries_most, entry_terms, entry_place, entry_count, entry_at};
ghost use Rattle.state.specs.Form.{in_form};
ghost use Rattle.state.specs.code.Tables.{Table, table_from, entry_masks, TableFits, row_of, has_terms, entries_in};
ghost use Rattle.entries.specs.code.Marks.{Marked, Left, given_up};

// The first n rows are in use; behind them is room for what is learnt, since there is no heap.
#[derive(Drop)]
pub struct Entries<'a> {
    pub state: &'a [u8],
    pub first: usize,
    pub counts: &'a mut [u32],
    pub masks: &'a mut [u32],
    pub marks: &'a mut [u32],
    pub n: usize,
    pub ghost own: { (state_size ≤ length state.now) × (first ≤ entries_most) },
    pub ghost fits: { TableFits entry_terms n (table_from first state.now counts.now masks.now) },
    pub ghost marked: { Marked n (table_from first state.now counts.now masks.now) marks.now },
}

// The same rows, lent to be read alone.
#[derive(Clone, Copy)]
pub struct Standing<'a> {
    pub state: &'a [u8],
    pub first: usize,
    pub counts: &'a [u32],
    pub masks: &'a [u32],
    pub marks: &'a [u32],
    pub n: usize,
    pub ghost own: { (state_size ≤ length state.now) × (first ≤ entries_most) },
    pub ghost fits: { TableFits entry_terms n (table_from first state.now counts.now masks.now) },
    pub ghost marked: { Marked n (table_from first state.now counts.now masks.now) marks.now },
}

// Whether no predicate of one of these marks implies one whose mark is `bound`, as far as marks tell.
fn all_apart(marks: &[u32], bound: u32) -> bool
    ensures { result ≡ true → (i : ℕ) → i < length marks.now → Apart (get_or marks.now i 0) bound }
{
    !predicates::marks::any_may_imply(marks, bound)
}

impl Standing<'_> {
    ghost use Rattle.entries.specs.Entries.{explained};
    ghost use Rattle.entries.specs.code.Rows.{row_at, standing};

    // The terms of row i: read into `room` where they stand in the bytes.
    fn row<'b>(&'b self, i: usize, room: &'b mut [u32; state::ENTRY_TERMS]) -> &'b [u32]
        requires { i < self.now.n }
        ensures { result.now ≡ row_at self.now i }
    {
        let count = self.counts[i] as usize;
        if i < self.first {
            numbers::get_words(
                self.state,
                state::ENTRIES_AT + i * state::ENTRY_SIZE + 4,
                room,
            );
            return &room[..count];
        }
        let from = (i - self.first) * state::ENTRY_TERMS;
        &self.masks[from..from + count]
    }

    // Whether row i has terms and implies p; p's mark is given.
    fn row_implies(&self, i: usize, p: &[u32], bound: u32) -> bool
        requires i_in_bounds { i < self.now.n }
        requires bound_value { bound ≡ mark_of p.now }
        ensures { result ≡ has_terms (row_at self.now i) && implies (row_at self.now i) p.now }
    {
        if !predicates::marks::may_imply(self.marks[i], bound) {
            return false;
        }
        let mut room = [0u32; state::ENTRY_TERMS];
        let row = self.row(i, &mut room);
        !row.is_empty() && predicates::marks::implies_by_mark(row, p, bound)
    }

    // Whether an entry implies p. All of them are held against p, so its mark is made once, and where no mark lets an entry imply p none is read.
    pub fn explained(&self, p: &[u32]) -> bool
        ensures { result ≡ explained (standing self.now) p.now }
    {
        if self.n == 0 {
            return false;
        }
        let bound = predicates::marks::mark_of(p);
        if all_apart(&self.marks[..self.n], bound) {
            return false;
        }
        for i in 0..self.n {
            if self.row_implies(i, p, bound) {
                return true;
            }
        }
        false
    }
}

impl Entries<'_> {
    ghost use Rattle.entries.specs.Entries.{explained, learn};
    ghost use Rattle.entries.specs.code.Rows.{row_in, known, row_at, standing, Room, Kept};

    // The rows as they stand.
    pub fn standing(&self) -> Standing<'_>
        ensures rows { (result.n ≡ self.now.n) × ((i : ℕ) → row_at result i ≡ row_in self.now i) × (result.marks.now ≡ self.now.marks.now) }
        ensures all { standing result ≡ known self.now }
    {
        Standing {
            state: self.state,
            first: self.first,
            counts: self.counts,
            masks: self.masks,
            marks: self.marks,
            n: self.n,
        }
    }

    // Whether an entry implies p. It stands alone so that a receipt's frame has no room for the rows that it lends.
    #[inline(never)]
    pub fn explained(&self, p: &[u32]) -> bool
        ensures { result ≡ explained (known self.now) p.now }
    {
        self.standing().explained(p)
    }

    // Whether e, which has terms, implies the predicate in row i; e's mark is given. No predicate of any terms implies one of none.
    // It stays beside `row_implies`: one function with the test as a closure would have to say in its contract what the closure may ask of a row.
    fn implies_row(&self, e: &[u32], mark: u32, i: usize) -> bool
        requires i_in_bounds { i < self.now.n }
        requires mark_value { (mark ≡ mark_of e.now) × (0 < length e.now) }
        ensures { result ≡ implies e.now (row_in self.now i) }
    {
        if !predicates::marks::may_imply(mark, self.marks[i]) {
            return false;
        }
        let mut room = [0u32; state::ENTRY_TERMS];
        let standing = self.standing();
        let row = standing.row(i, &mut room);
        !row.is_empty() && predicates::marks::implies_by_mark(e, row, self.marks[i])
    }

    // Gives up the entries that e, which has terms, implies; e's mark is given.
    fn forget(&mut self, e: &[u32], mark: u32)
        requires mark_value { (mark ≡ mark_of e.now) × (0 < length e.now) }
        ensures counts_after { self.new.counts.now ≡ given_up self.old.n (λ i. implies e.now (row_in self.old i)) self.old.counts.now }
        ensures kept { Kept self.old self.new }
        ensures rest { (self.new.n ≡ self.old.n) × (self.new.masks.now ≡ self.old.masks.now) × (self.new.marks.now ≡ self.old.marks.now) }
    {
        for i in 0..self.n {
            if self.implies_row(e, mark, i) {
                self.counts[i] = 0;
            }
        }
    }

    // Places e, which has terms and which no entry implies: those that it implies go, and it stands last.
    fn put_last(&mut self, e: &[u32])
        requires room { Room 1 self.old }
        requires e_nonzero { (0 < length e.now) × (length e.now ≤ entry_terms) }
        requires e_value { explained (known self.old) e.now ≡ false }
        ensures kept { Kept self.old self.new × (self.new.n ≡ self.old.n + 1) }
        ensures entries_after { known self.new ≡ learn e.now (known self.old) }
    {
        let mark = predicates::marks::mark_of(e);
        self.forget(e, mark);
        let n = self.n;
        let from = (n - self.first) * state::ENTRY_TERMS;
        self.counts[n] = e.len() as u32;
        predicates::sums::copy(self.masks, from, e);
        self.marks[n] = mark;
        self.n = n + 1;
    }

    // Places an entry of one term: not added where an entry implies it, else those that it implies go, and it stands last. What stands in the arrays
    // for rows without terms, and behind the last row, is free.
    pub fn learn_term(&mut self, term: u32)
        requires { Room 1 self.old }
        ensures kept { Kept self.old self.new × (self.new.n ≤ self.old.n + 1) }
        ensures entries_after { known self.new ≡ learn (term ∷ []) (known self.old) }
    {
        let e = [term];
        if !self.explained(&e) {
            self.put_last(&e);
        }
    }

    // Places the sum of q and p: not added where an entry implies it, which is seen before it is put in normal form; else those that it implies go,
    // and it stands last. What stands in the arrays for rows without terms, and behind the last row, is free.
    pub fn learn_sum(&mut self, q: &[u32], p: &[u32])
        requires room { Room 1 self.old }
        requires p_nonzero { (0 < length p.now) × (length q.now + length p.now ≤ entry_terms) }
        ensures kept { Kept self.old self.new × (self.new.n ≤ self.old.n + 1) }
        ensures entries_after { known self.new ≡ learn (normal (q.now ++ p.now)) (known self.old) }
    {
        let mut terms = [0u32; state::ENTRY_TERMS];
        let m = predicates::sums::both(&mut terms, q, p);
        if self.explained(&terms[..m]) {
            return;
        }
        let count = predicates::normal::normal_form(&mut terms[..m]);
        self.put_last(&terms[..count]);
    }
}

// Puts e last, into row n of this width.
pub fn add_row(counts: &mut [u32], masks: &mut [u32], n: usize, width: usize, e: &[u32])
    requires { (n < length counts.old) × (n * width + length e.now ≤ length masks.old) × (length e.now ≤ entry_terms) }
    ensures counts_after { counts.new ≡ set counts.old n (length e.now) }
    ensures masks_after { masks.new ≡ sets masks.old (n * width) e.now }
{
    counts[n] = e.len() as u32;
    predicates::sums::copy(masks, n * width, e);
}

// The mark of the entry in place i of a state in form.
fn mark_at(s: &[u8], i: usize) -> u32
    requires { (state_size ≤ length s.now) × T (in_form s.now) × (i < entry_count s.now) }
    ensures { result ≡ mark_of (entry_at s.now i) }
{
    let mut row = [0u32; state::ENTRY_TERMS];
    numbers::get_words(s, state::ENTRIES_AT + i * state::ENTRY_SIZE + 4, &mut row);
    predicates::marks::names_alone(&row)
}

// Makes the counts and the marks of the n entries in a state in form; what stands behind them stays.
pub fn mark_rows(s: &[u8], n: usize, counts: &mut [u32], marks: &mut [u32])
    requires state_size_in_bounds { (state_size ≤ length s.now) × T (in_form s.now) × (n ≡ entry_count s.now) }
    requires n_in_bounds { (n ≤ length counts.old) × (n ≤ length marks.old) }
    ensures counts_after { counts.new ≡ tab n (λ i. num (entry_place i) 4 s.now) ++ drop n counts.old }
    ensures marks_after { marks.new ≡ tab n (λ i. mark_of (entry_at s.now i)) ++ drop n marks.old }
{
    for i in 0..n {
        counts[i] = numbers::get32(s, state::ENTRIES_AT + i * state::ENTRY_SIZE);
        marks[i] = mark_at(s, i);
    }
}
