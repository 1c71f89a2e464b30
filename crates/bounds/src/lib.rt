// Outward bounds of rational B-spline curves and surfaces: the source's nurbs_bounds.rs.
#![tactic(auto)]

pub mod answer;
pub mod curve;
mod flat;
mod levels;
pub mod point;
mod rows;
mod start;
pub mod store;
pub mod surface;
