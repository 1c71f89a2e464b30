// Jets over intervals, de Boor's step on a homogeneous net of them, and the way back to Cartesian bounds.
#![tactic(auto)]

pub mod cartesian;
pub mod jet;
pub mod net;
