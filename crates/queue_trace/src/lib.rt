//! The lines of a trace over an engine: what is done for each, and what is printed.
#![tactic(auto)]

mod traced;

pub use traced::perform;
