//! A lock round one state, which threads take in turns. Each has a pass with a number, and knows the row of the state that has this number.
#![tactic(auto)]

mod closing;
mod lock;
mod rows;
mod steps;
mod view;

pub use closing::Closing;
pub use lock::{Pass, SeatLock};
pub use rows::{Origin, SeatCounts, SeatRow, Seated};
pub use view::Share;
