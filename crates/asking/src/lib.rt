// Asking (document 01, "Asking"): what the held data and the failure knowledge of a state in form leave possible, and the one name that explains them
// where one is enough. Every function here is proved, and the crate assumes nothing of its own.
#![tactic(auto)]

pub mod ask;
pub mod one;

// What asking answers.
#[derive(Clone, Copy, Debug, PartialEq, Eq)]
pub enum Answer {
    Contradicted,
    Open,
    Between(u64, u64),
}
