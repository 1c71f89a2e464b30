// The calls of `exports` as C functions: each is one of them, with its clauses.
#![tactic(auto)]

pub mod boxes;
pub mod curves;
pub mod editing;
pub mod floats;
pub mod intervals;
pub mod points;
pub mod rows;
pub mod spans;
pub mod tables;
