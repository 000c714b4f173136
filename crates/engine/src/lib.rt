// What a call makes of a state (document 01): the definitions of setting up, ageing and receiving, and the first two on the bytes of a state in form.
// Every function here is proved, and the crate assumes nothing of its own.
#![tactic(auto)]

pub mod ageing;
pub mod set_up;

// The greatest delay that a channel may have, in microseconds.
pub const DELAY_MOST: u64 = 600_000_000;
