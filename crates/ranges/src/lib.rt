// The span of a closed range, and what a bound asks of a range and of the numbers that it reads.
#![tactic(auto)]

pub mod range;
pub mod read;
mod spans;
