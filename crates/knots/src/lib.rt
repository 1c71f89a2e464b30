// Knots, curves and surfaces: refusals, clearing, validation, spans.
#![tactic(auto)]

pub mod clear;
pub mod curve;
pub mod knots;
pub mod limits;
mod numbers;
pub mod places;
pub mod refusal;
pub mod shape;
pub mod span;
pub mod surface;
pub mod walk;
