//! Walks over jobs in the order of their priority and number: the ready ones that a queue list selects, as a poll takes
//! them, and those that wait for a key, as they are let go.
//!
//! They are found one after another by the tables' look-ups of what comes next, so that no list of them is made.
#![tactic(auto)]

mod selected;
mod waiting;

pub use selected::Selected;
pub use waiting::Waiting;
