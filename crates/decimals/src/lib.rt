// Numbers as text in a lent run of bytes.
#![tactic(auto)]

mod figures;
mod fixed;
pub mod pieces;
mod text;
