//! Locks on rows. An open transaction has a seat, and holds the rows of its plan, shared or alone, until it ends.
//!
//! A contract sees [`Locks`] as a list of rows, each with its mode and the seat that holds it.
#![tactic(auto)]

mod held;
mod laws;
mod locks;
mod seats;

pub use laws::who_holds;
pub use locks::{Locks, TakeFault};
