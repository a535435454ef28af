//! What a command is planned in, for the crates that make plans.
//!
//! A contract sees a [`Scene`] as the scene of `plan_model`: the book, the settings, and the command's moment.
#![tactic(auto)]

mod laws;
mod scene;

pub use laws::{plans_are_told, refusals_come_first};
pub use scene::Scene;
