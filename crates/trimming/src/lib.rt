// A curve is cut to a part of its domain, in lent runs.
#![tactic(auto)]

mod cut;
mod start;
pub mod trim;
