// The bytes of a monitor's state (document 01, "State bytes"): the test for form, rows, data and entries written and read, and the knowledge as a
// struct.
// Every function here is proved, and the crate assumes nothing of its own.
#![tactic(auto)]

pub mod form;
pub mod head;
pub mod holding;
pub mod intervals;
pub mod knowledge;
pub mod places;
pub mod rows;
pub mod sound;
pub mod store;

pub use head::{drift, held, known, own, reading};

// The layout, as `specs/Layout.antt` names it: a size or a place that changes is changed here and there. Each place is where the one before it ends.

// Where the numbers of the head stand: own name, drift, reading, held count, entry count.
pub const OWN_AT: usize = 0;

pub const DRIFT_AT: usize = OWN_AT + 4;

pub const READING_AT: usize = DRIFT_AT + 4;

pub const HELD_AT: usize = READING_AT + 8;

pub const KNOWN_AT: usize = HELD_AT + 4;

// The places of data: the first one's, how many there are, and a datum's terms. Its right end, its row of terms and the millionths of both ends
// stand in it.
pub const DATA_AT: usize = KNOWN_AT + 4;

pub const DATA_MOST: usize = 16;

pub const DATUM_TERMS: usize = 8;

pub const RIGHT_IN: usize = 8;

pub const ROW_IN: usize = RIGHT_IN + 8;

pub const LEFT_MILLIONTHS_IN: usize = ROW_IN + 4 + DATUM_TERMS * 4;

pub const RIGHT_MILLIONTHS_IN: usize = LEFT_MILLIONTHS_IN + 4;

pub const DATUM_SIZE: usize = RIGHT_MILLIONTHS_IN + 4;

// How many words a datum has, and where the places of data end.
pub const DATUM_WORDS: usize = DATUM_SIZE / 4;

pub const DATA_END: usize = DATA_AT + DATA_MOST * DATUM_SIZE;

// The places of entries: the first one's, how many there are, and an entry's terms, bytes and words.
pub const ENTRIES_AT: usize = DATA_END;

pub const ENTRIES_MOST: usize = 32;

pub const ENTRY_TERMS: usize = 16;

pub const ENTRY_SIZE: usize = 4 + ENTRY_TERMS * 4;

pub const ENTRY_WORDS: usize = ENTRY_SIZE / 4;

// The places of the names' clocks: the first one's, and how many there are.
pub const CLOCKS_AT: usize = ENTRIES_AT + ENTRIES_MOST * ENTRY_SIZE;

pub const CLOCKS_MOST: usize = NAME_MOST as usize + 1;

// Where the epochs begin, a byte for each identifier.
pub const EPOCHS_AT: usize = CLOCKS_AT + CLOCKS_MOST * clocks::place::PLACE_SIZE;

// How many bytes a state has.
pub const STATE_SIZE: usize = EPOCHS_AT + epochs::EPOCHS_MOST;

// How many rows data and entries have together, and how many masks the entries.
pub const ROWS_MOST: usize = DATA_MOST + ENTRIES_MOST;

pub const ENTRY_MASKS: usize = ENTRIES_MOST * ENTRY_TERMS;

// The last whole microsecond that can be stored, the first reading that cannot, the highest own name, and the greatest own drift.
pub const LAST_WHOLE: u64 = READING_LIMIT - 1;

pub const READING_LIMIT: u64 = 288_230_376_151_711_744;

pub const NAME_MOST: u32 = 28;

pub const DRIFT_MOST: u32 = clocks::DRIFT_MOST;
