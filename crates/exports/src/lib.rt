// The C face of the libraries: numbers and lent runs in, a number and filled runs out. `exports_c` hands each call to C.
#![tactic(auto)]

mod answer;
pub mod boxes;
pub mod curves;
pub mod editing;
pub mod floats;
pub mod intervals;
mod operands;
pub mod points;
pub mod rows;
pub mod spans;
pub mod tables;
