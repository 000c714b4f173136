// The least set of failed names of all (document 01, "Fewest failures"): over the left ends, and over every predicate where there is no end.
ghost use Rattle.std.specs.Prelude.{◌≡◌, ◌≤◌, length};
ghost use Rattle.search.specs.code.Tables.{LeastIn, LeastSetIn};

use super::search::Search;
use super::stretches::Table;

impl<'a> Table<'a> {
    // The least set within the limit that explains every claim, or those whose interval lacks some left end; 2^29, the mask of no set, where
    // there is none, as the search has it. Of each stretch of ends the last is tried, which needs the fewest claims; where there is an end,
    // every claim is more than it needs. The search lists rows in `listed`; what it leaves there is free.
    // No range is gone over: each stretch tells where the next begins.
    fn least_set(&self, listed: &mut [u32], limit: u32, free: u32) -> u32
        requires { length self.now.rows.now ≤ length listed.old }
        ensures fact { LeastSetIn self.now limit free result }
        ensures listed_len_unchanged { length listed.new ≡ length listed.old }
    {
        let rows = self.rows.len();
        if self.entries == rows {
            let search = Search {
                rows: self.rows,
                listed: &self.order[..rows],
                limit,
                enough: 0,
            };
            return search.predicate_step(0, 0, free, names::NO_SET);
        }
        let mut best: u32 = names::NO_SET;
        let mut floor: u64 = 0;
        while let Some(from) = self.next_left(floor) {
            let x = self.stretch_end(from);
            let m = self.list_outside(x, listed);
            let search = Search {
                rows: self.rows,
                listed: &listed[..m],
                limit,
                enough: 0,
            };
            best = search.predicate_step(0, 0, free, best);
            floor = x + 1;
        }
        best
    }

    // The same set, if there is one. Every end needs the entries, so where no set within the limit explains these, no end is tried. What is left in
    // `listed` is free.
    pub fn least_within(&self, listed: &mut [u32], limit: u32, free: u32) -> Option<u32>
        requires { length self.now.rows.now ≤ length listed.old }
        ensures fact { LeastIn self.now limit free result }
        ensures listed_len_unchanged { length listed.new ≡ length listed.old }
    {
        let known = self.list_entries(listed);
        let search = Search {
            rows: self.rows,
            listed: &listed[..known],
            limit,
            enough: names::NO_SET,
        };
        if names::NO_SET <= search.predicate_step(0, 0, free, names::NO_SET) {
            return None;
        }
        let set = self.least_set(listed, limit, free);
        if names::NO_SET <= set {
            return None;
        }
        Some(set)
    }
}
