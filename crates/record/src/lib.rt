// The table record: its reader and its writer.
#![tactic(auto)]

mod bytes;
pub mod clear;
mod field;
pub mod read;
pub mod table;
pub mod write;
