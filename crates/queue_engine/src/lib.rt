//! The engine of the job system over a disk: commands that are begun at seats, and committed or rolled back in any order.
//!
//! A contract sees an [`Engine`] as its settings, the store with its open plans, and its journal; with a record in doubt these
//! are a situation of `situation_model`.
#![tactic(auto)]

mod built;
mod engine;
mod planned;
mod records;

pub use built::is_built;
pub use engine::Engine;
