//! Which queues a worker polls, and in which order: queue lists such as `real_time,back*`, after Solid Queue.
//!
//! A contract sees a [`QueueList`] as the list of its items' bytes.
#![tactic(auto)]

mod groups;
mod list;

pub use groups::polled_once;
pub use list::{ListFault, QueueList};
