//! The tables of the store.
//!
//! A contract sees them as the world that they stand for, and beside it for how many more transitions there is room.
#![tactic(auto)]

mod apply;
mod blanks;
mod jobs;
mod least;
mod look_ups;
mod names;
mod nexts;
mod places;
mod rows;
mod runs;
mod tables;
mod write;

pub use tables::Tables;
