//! The table of transitions over plain values: what each needs of the rows that it holds, and what it leaves there.
#![tactic(auto)]

mod found;
mod named;
mod ranges;
mod rows;
mod seen;
mod table;

pub use found::{Found, Stand, holds_permit};
pub use named::{generation_named, job_named, note, pid_named};
pub use ranges::{is_in_range, is_moment};
pub use rows::{Held, key_held};
pub use seen::{Seen, Sight};
pub use table::{
    allows, changes, is_paused_then, is_registered_then, job_then, last_run_then, semaphore_then,
};
