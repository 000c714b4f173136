// Receiving (document 01) on the bytes of a state in form: the epochs heard, the datum that arrives, the sender's clock, and what the four steps make
// of it. Every function here is proved, and the crate assumes nothing of its own.
#![tactic(auto)]

pub mod delays;
mod hearing;
pub mod receipt;
mod receiving;
mod watching;
