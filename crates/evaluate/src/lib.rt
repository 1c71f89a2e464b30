// Points and derivatives of curves and surfaces.
#![tactic(auto)]

mod controls;
pub mod curve;
pub mod curve2;
mod net;
pub mod refusals;
pub mod sums;
pub mod surface;
