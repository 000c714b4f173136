// Epochs (document 02, W-204): a mended monitor has a new name. Names that count as failed in a predicate, and the epochs known of each identifier,
// in 29 bytes of a lent buffer: their form, what a message's names make of them.
// Every function here is proved, and the crate assumes nothing of its own.
#![tactic(auto)]

pub mod known;
pub mod withdraw;

// How many identifiers have an epoch, and the greatest one.
pub const EPOCHS_MOST: usize = 29;

pub const EPOCH_MOST: u8 = 15;
