//! The store that a journal stands for: its records, read and replayed.
#![tactic(auto)]

mod kept;
mod laws;
mod opening;
mod taken;

pub use kept::{crashes_leave_kept, kept_recovers};
pub use laws::one_verdict;
pub use opening::open;
