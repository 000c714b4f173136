// The four steps of receiving (document 01, "Receiving") on held data in rows and entries in a table: arrays that the caller lends.
// Every function here is proved, and the crate assumes nothing of its own.
#![tactic(auto)]

pub mod steps;

// How many rows of data and of entries there are.
#[derive(Clone, Copy)]
pub struct Rows {
    pub held: usize,
    pub known: usize,
}
