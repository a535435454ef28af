//! The arithmetic of concurrency limits: a semaphore's permits, generations and expiry. No call takes memory.
//!
//! A contract sees a [`Sem`] as its four numbers.
#![tactic(auto)]

mod sem;

pub use sem::{Sem, expired, give, give_back, gives, is_closed, take};
