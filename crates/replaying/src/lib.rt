// Replaying the Rust's answers from a list on standard input: words and runs of it, and how an answer is judged.
#![tactic(auto)]

pub mod answers;
pub mod runs;
pub mod words;
