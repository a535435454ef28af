//! Walks in the orders of the tables' look-ups, from each to the next, so that no list is made.

mod claimed;
mod due;
mod expired;
mod over;
mod silent;

pub use claimed::Claimed;
pub use due::Due;
pub use expired::Expired;
pub use over::Over;
pub use silent::Silent;
