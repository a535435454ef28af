//! The job system's HTTP service over an engine: what a request asks for, and what is done and replied.
#![tactic(auto)]

mod asked;
mod laws;
mod ranges;
mod service;

pub use laws::{answers_are_steps, only_faults_are_503};
pub use queue_replies::fault_reply;
pub use ranges::is_in_range;
pub use service::answer;
