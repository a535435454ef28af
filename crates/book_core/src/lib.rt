//! The store with the plans that are open on it.
//!
//! A contract sees a [`Book`] as the book of `plan_model`: the world of its tables, the open plan of each seat with its rows,
//! and the numbers that are given.
#![tactic(auto)]

mod book;
mod counts;
mod look_ups;
mod opened;
mod plan;

pub use book::Book;
pub use plan::Plan;
