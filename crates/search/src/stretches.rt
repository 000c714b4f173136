// The ends at which an answer can begin (document 01, "Asking"): left ends rising, to the first that some set of failed names explains. Ends with
// no right end between them are tried together: the last of them needs the fewest predicates.
ghost use Rattle.std.specs.Prelude.{◌≡◌, ◌⊎◌, Bool, ℕ, ◌≤◌, ◌<◌, ltb, map, IfSome, length, get_or, take};
ghost use Rattle.names.specs.Sets.{no_set};
ghost use Rattle.search.specs.declared.rows.Span.{Span};
ghost use Rattle.search.specs.code.LeftEnds.{outside, lefts_of, rights_of, no_end, or_none, Next, Last, IsEnd, Unbroken, Latest, Listing, Ready};

use super::rows::{Row, Span};
use super::search::Search;

// Claims: rows with their ends, of which the first so many are entries, whose intervals are empty; and an order of all rows for the search.
#[derive(Clone, Copy)]
pub struct Table<'a> {
    pub rows: &'a [Row],
    pub ends: &'a [Span],
    pub order: &'a [u32],
    pub entries: usize,
    pub ghost ready: { Ready entries (length rows.now) (lefts_of ends.now) (rights_of ends.now) rows.now order.now },
}

// An end and the set that explains it.
#[derive(Clone, Copy)]
pub struct Reached {
    pub end: u64,
    pub set: u32,
}

// A stretch of left ends with no right end between them: its first and its last end, and the set that explains the last.
#[derive(Clone, Copy)]
struct Stretch {
    pub from: u64,
    pub end: u64,
    pub set: u32,
}

// The least of the ends of one side, in places `from` to `to`, that is no less than the floor.
// It begins at 2^64 - 1, which no end is above.
fn next_end<F: Fn(Span) -> u64>(
    ends: &[Span],
    side: F,
    from: usize,
    to: usize,
    floor: u64,
) -> Option<u64>
    requires callable { F.IsAlwaysCallable side }
    requires within { (from ≤ to) × (to ≤ length ends.now) }
    ensures below { IfSome result (λ r. r < no_end) }
    ensures next { (f : Span → ℕ) → ((s : Span) (r : ℕ) → F.post side s r → r ≡ f s) → Next (map f ends.now) from to floor (or_none result) }
{
    let mut least: u64 = super::NO_END;
    for i in from..to {
        let end = side(ends[i]);
        if (floor <= end) & (end < least) {
            least = end;
        }
    }
    if least < super::NO_END {
        Some(least)
    } else {
        None
    }
}

// The greatest of the left ends in places `from` to `to` that lies from the floor to the roof; the floor where there is none.
fn last_end(ends: &[Span], from: usize, to: usize, floor: u64, roof: u64) -> u64
    requires { (from ≤ to) × (to ≤ length ends.now) }
    ensures { Last (lefts_of ends.now) from to floor roof result }
{
    let mut last = floor;
    for i in from..to {
        let end = ends[i].left;
        if (last < end) & (end <= roof) {
            last = end;
        }
    }
    last
}

// Lists, in the order of the search, the rows that are wanted. Answers how many.
fn list<F: Fn(u32) -> bool>(order: &[u32], wanted: F, listed: &mut [u32]) -> usize
    requires callable { (j : ℕ) → j < length order.now → F.pre wanted (get_or order.now j 0) }
    requires room { length order.now ≤ length listed.old }
    ensures fact { (f : ℕ → Bool)
        → ((j : ℕ) (r : Bool) → j < length order.now → F.post wanted (get_or order.now j 0) r → r ≡ f (get_or order.now j 0))
        → Listing f order.now (length order.now) listed.old listed.new result }
    ensures listed_len_unchanged { length listed.new ≡ length listed.old }
    ensures few { result ≤ length order.now }
{
    let mut m: usize = 0;
    for row in order {
        if wanted(*row) {
            listed[m] = *row;
            m += 1;
        }
    }
    m
}

impl<'a> Table<'a> {
    ghost use Rattle.search.specs.code.Tables.{StretchIn, FirstIn};

    // The least of the left ends that is no less than the floor.
    pub(crate) fn next_left(&self, floor: u64) -> Option<u64>
        ensures below { IfSome result (λ r. r < no_end) }
        ensures next { Next (lefts_of self.now.ends.now) self.now.entries (length self.now.rows.now) floor (or_none result) }
    {
        next_end(
            self.ends,
            |s: Span| s.left,
            self.entries,
            self.rows.len(),
            floor,
        )
    }

    // The last end of the stretch that the left end x begins.
    pub(crate) fn stretch_end(&self, x: u64) -> u64
        ensures { Unbroken self.now.entries (length self.now.rows.now) (rights_of self.now.ends.now) x result
            × ((result ≡ x) ⊎ IsEnd self.now.entries (length self.now.rows.now) (lefts_of self.now.ends.now) result)
            × ((y : ℕ) → IsEnd self.now.entries (length self.now.rows.now) (lefts_of self.now.ends.now) y
            → Unbroken self.now.entries (length self.now.rows.now) (rights_of self.now.ends.now) x y → y ≤ result) }
    {
        let rows = self.rows.len();
        let roof = next_end(self.ends, |s: Span| s.right, self.entries, rows, x).unwrap_or(
            super::NO_END,
        );
        last_end(self.ends, self.entries, rows, x, roof)
    }

    // Lists, in the order of the search, the rows whose interval lacks the instant x. Answers how many.
    pub(crate) fn list_outside(&self, x: u64, listed: &mut [u32]) -> usize
        requires { length self.now.rows.now ≤ length listed.old }
        ensures fact { (let rows : ℕ = length self.now.rows.now in
            Listing (outside (lefts_of self.now.ends.now) (rights_of self.now.ends.now) x) (take rows self.now.order.now) rows
            listed.old listed.new result) }
        ensures listed_len_unchanged { length listed.new ≡ length listed.old }
    {
        let lacks = |row: u32| {
            let span = self.ends[row as usize];
            (x < span.left) | (span.right < x)
        };
        list(&self.order[..self.rows.len()], lacks, listed)
    }

    // Lists, in the order of the search, the entries. Answers how many.
    pub(crate) fn list_entries(&self, listed: &mut [u32]) -> usize
        requires { length self.now.rows.now ≤ length listed.old }
        ensures fact { (let rows : ℕ = length self.now.rows.now in
            Listing (λ k. ltb k self.now.entries) (take rows self.now.order.now) rows listed.old listed.new result) }
        ensures listed_len_unchanged { length listed.new ≡ length listed.old }
    {
        list(
            &self.order[..self.rows.len()],
            |row: u32| (row as usize) < self.entries,
            listed,
        )
    }

    // The first stretch of left ends, rising, whose last end some set within the limit explains, with the set. The search lists rows in `listed`;
    // what it leaves there is free. Document 01 wants the loop over ends left by its label.
    fn first_stretch(&self, listed: &mut [u32], limit: u32, free: u32) -> Option<Stretch>
        requires { (length self.now.rows.now ≤ length listed.old) × (free < no_set) }
        ensures fact { StretchIn self.now limit free result }
        ensures listed_len_unchanged { length listed.new ≡ length listed.old }
    {
        let mut floor: u64 = 0;
        'ends: loop {
            let from = match self.next_left(floor) {
                None => break 'ends None,
                Some(from) => from,
            };
            let x = self.stretch_end(from);
            let m = self.list_outside(x, listed);
            if m == 0 {
                break 'ends Some(Stretch {
                    from,
                    end: x,
                    set: 0,
                });
            }
            let search = Search {
                rows: self.rows,
                listed: &listed[..m],
                limit,
                enough: names::NO_SET,
            };
            let mut rest = free;
            for t in self.rows[search.listed[0] as usize].terms() {
                if super::search::worth(*t, 0, rest, limit, names::NO_SET) {
                    let set = search.predicate_step(1, names::union(0, *t), rest, names::NO_SET);
                    if set < names::NO_SET {
                        break 'ends Some(Stretch { from, end: x, set });
                    }
                    rest = super::search::freed(*t, 0, rest);
                }
            }
            floor = x + 1;
        }
    }

    // The greatest left end on whose predicates the set leaves false; 0 where it makes all of them true.
    fn latest(&self, set: u32) -> u64
        ensures { Latest self.now.entries (length self.now.rows.now) (lefts_of self.now.ends.now) self.now.rows.now set result }
    {
        let mut last: u64 = 0;
        for i in self.entries..self.rows.len() {
            let end = self.ends[i].left;
            if last < end {
                if !self.rows[i].holds(set) {
                    last = end;
                }
            }
        }
        last
    }

    // From the stretch whose last end a set explains to the first end in it that some set explains. A set that explains an end explains all ends
    // before it down to the latest of those that it leaves false. What is left in `listed` is free.
    // No range is gone over: each set that is found tells the next end.
    fn first_in_stretch(
        &self,
        listed: &mut [u32],
        limit: u32,
        free: u32,
        stretch: Stretch,
    ) -> Reached
        requires { (length self.now.rows.now ≤ length listed.old) × (free < no_set)
            × StretchIn self.now limit free (Some stretch) }
        ensures fact { FirstIn self.now limit free (Some result) }
        ensures listed_len_unchanged { length listed.new ≡ length listed.old }
    {
        let rows = self.rows.len();
        let mut set = stretch.set;
        let mut end = self.next_left(self.latest(set)).unwrap();
        while stretch.from < end {
            let x = last_end(self.ends, self.entries, rows, stretch.from, end - 1);
            let m = self.list_outside(x, listed);
            let search = Search {
                rows: self.rows,
                listed: &listed[..m],
                limit,
                enough: names::NO_SET,
            };
            let other = search.predicate_step(0, 0, free, names::NO_SET);
            if names::NO_SET <= other {
                return Reached { end, set };
            }
            set = other;
            end = self.next_left(self.latest(set)).unwrap();
        }
        Reached { end, set }
    }

    // The first of the left ends that some set within the limit explains, with such a set. Which of these sets it is, and what is left in
    // `listed`, is free.
    pub fn first_end(&self, listed: &mut [u32], limit: u32, free: u32) -> Option<Reached>
        requires { (length self.now.rows.now ≤ length listed.old) × (free < no_set) }
        ensures fact { FirstIn self.now limit free result }
        ensures listed_len_unchanged { length listed.new ≡ length listed.old }
    {
        let stretch = self.first_stretch(listed, limit, free)?;
        Some(self.first_in_stretch(listed, limit, free, stretch))
    }
}
