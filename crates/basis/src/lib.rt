// The basis functions of a span and their derivatives.
#![tactic(auto)]

mod basis;
pub mod ders;
mod row;
mod signed;
