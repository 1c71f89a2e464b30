// What every edit of a curve rests on: controls, counts over knots, a curve in a lent run, the refusals at the start and what an edit answers. Each call is total.
#![tactic(auto)]

pub mod answer;
pub mod control;
pub mod counts;
mod inside;
mod lay;
pub mod rows;
pub mod start;
pub mod work;
