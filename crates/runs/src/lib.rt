// What all crates above read from runs of numbers and store there: numbers, points, weights, and runs at the front of others. Each call is total.
#![tactic(auto)]

pub mod copy;
pub mod larger;
pub mod numbers;
pub mod points;
pub mod store;
pub mod vector;
pub mod weights;
