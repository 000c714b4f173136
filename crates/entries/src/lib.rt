// The failure knowledge in rows (document 01, "Receiving", steps 1 and 2): whether an entry implies a predicate, and an entry placed.
// Every function here is proved, and the crate assumes nothing of its own.
#![tactic(auto)]

pub mod tables;
