//! Entries in order, such as the jobs of a queue by priority and number.
//!
//! A contract sees an [`Order`] as its entries, strictly sorted, and the number that it has room for.
#![tactic(auto)]

mod entry;
mod laws;
mod order;
mod page;
mod pages;
mod place;

pub use entry::Entry;
pub use laws::what_is_in;
pub use order::Order;
