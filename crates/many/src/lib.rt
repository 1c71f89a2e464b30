// Many answers of one curve with one validation: a point for each parameter, a box for each span.
#![tactic(auto)]

pub mod boxes;
pub mod points;
mod row;
mod start;
mod store;
