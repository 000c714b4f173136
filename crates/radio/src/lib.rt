// The live radio message (document 02, W-204): document 01's message with the epochs of its sender and of each identifier in its terms.
// Read from words or refused, its term words and its epoch words as parts of the caller's slice, and rewritten in ends form.
// Every function here is proved, and the crate assumes nothing of its own.
#![tactic(auto)]

pub mod read;
pub mod write;

// The fewest and the most words of a message, and the most in bytes.
pub const WORDS_LEAST: usize = 6;

pub const WORDS_MOST: usize = 43;

pub const BYTES_MOST: usize = WORDS_MOST * 4;

// An epoch word is below it: an identifier in bits 0 to 4, an epoch in bits 5 to 8.
pub const NAME_LIMIT: u32 = 512;
