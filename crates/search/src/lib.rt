// The search for failed names (document 01, "Fewest failures"): over predicates in rows, over the left ends of intervals, and for the least set of
// all. It knows nothing of states. Every function here is proved, and the crate assumes nothing of its own.
#![tactic(auto)]

pub mod least;
pub mod rows;
pub mod search;
pub mod stretches;

// How many rows there are at most, how many terms a row has at most (`specs/code/Search.antt`), and how many masks all rows have.
pub const ROWS_MOST: usize = 48;

pub const ROW_WIDTH: usize = 16;

pub const MASKS_MOST: usize = ROWS_MOST * ROW_WIDTH;

// No end (`specs/code/LeftEnds.antt`).
pub const NO_END: u64 = 18_446_744_073_709_551_615;
