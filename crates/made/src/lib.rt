// Curves made of others: a curve run backwards, an isoparametric curve of a surface.
#![tactic(auto)]

mod front;
mod iso;
pub mod iso_curve;
pub mod reverse;
