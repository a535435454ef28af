//! The outside in memory. It exposes all that it holds, and fails where it is made to.

pub(crate) mod change;
pub(crate) mod choice;
pub(crate) mod clock;
pub(crate) mod counts;
pub(crate) mod disk;
pub(crate) mod file;
pub(crate) mod range;
pub(crate) mod store;
pub(crate) mod streams;
pub(crate) mod trickle;
