// A curve's degree is raised, in lent runs.
#![tactic(auto)]

mod copy;
pub mod elevate;
mod extract;
mod inner;
mod into;
mod join;
mod put_knots;
mod raise;
mod segments;
mod start;
mod walk;
