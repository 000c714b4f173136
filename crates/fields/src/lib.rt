// The fields of a line, and numbers read and printed in decimal, for the programs that read lines.
// Every function here is proved, and the crate assumes nothing of its own.
#![tactic(auto)]

pub mod read;
pub mod text;
