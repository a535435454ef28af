//! The tests of `seat_lock`, by threads that count under a lock.
#![tactic(auto)]

mod counting;
mod tally;
#[cfg(test)]
mod tests;

pub use counting::count_in_threads;
pub use tally::Tally;
