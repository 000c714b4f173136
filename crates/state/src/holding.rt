// Held data as calls work on them: a row for each.
ghost use Rattle.std.specs.Prelude.{◌≡◌, ◌≤◌, length};
ghost use Rattle.predicates.specs.Lists.{padded};
ghost use Rattle.state.specs.Layout.{datum_terms};
ghost use Rattle.state.specs.code.Tables.{no_row, terms_of, has_terms, datum_of, datum_in};

use ends::{End, Ends};

// A datum: its ends, how many terms it has, and they in the first places. A row without terms has been given up.
// There is no heap, so the count stands beside the terms; and by it a row is given up where it stands.
#[derive(Clone, Copy)]
pub struct Held {
    pub ends: Ends,
    pub count: u32,
    pub terms: [u32; super::DATUM_TERMS],
}

impl Held {
    // A row without terms.
    pub fn none() -> Held
        ensures { result ≡ no_row }
    {
        let start = End {
            whole: 0,
            millionths: 0,
        };
        Held {
            ends: Ends {
                left: start,
                right: start,
            },
            count: 0,
            terms: [0; super::DATUM_TERMS],
        }
    }

    // The datum of these ends under p, with zeros behind its terms.
    pub fn new(ends: Ends, p: &[u32]) -> Held
        requires { length p.now ≤ datum_terms }
        ensures { (datum_in result ≡ datum_of ends p.now) × (result.ends ≡ ends) × (result.count ≡ length p.now)
            × (result.terms ≡ padded datum_terms p.now) }
    {
        let mut terms = [0; super::DATUM_TERMS];
        terms[..p.len()].copy_from_slice(p);
        Held {
            ends,
            count: p.len() as u32,
            terms,
        }
    }

    // Its terms.
    pub fn terms(&self) -> &[u32]
        requires { self.now.count ≤ datum_terms }
        ensures { result.now ≡ terms_of self.now }
    {
        &self.terms[..self.count as usize]
    }

    // Whether it has terms.
    pub fn is_live(&self) -> bool
        ensures { result ≡ has_terms (terms_of self.now) }
    {
        self.count != 0
    }
}
