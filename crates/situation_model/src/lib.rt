//! Several callers on one store, who open, commit and give up plans in any order: definitions with laws over them.
#![tactic(auto)]

mod examples;
mod laws;

pub use examples::worked_examples;
pub use laws::{
    commits_are_legal, moments_never_fall, new_numbers_differ, refusals_change_nothing,
    steps_stay_good, worlds_are_replays,
};
