// Intervals by how far they reach below and above 0, so that both ends are rounded up: the bits of `interval` with fewer steps.
#![tactic(auto)]

pub mod ends;
pub mod factor;
pub mod flat;
