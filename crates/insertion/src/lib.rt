// Knots inserted into a curve, in lent runs.
#![tactic(auto)]

pub mod insert;
mod list;
mod lower;
mod one;
mod put_knot;
mod start;
pub mod times;
