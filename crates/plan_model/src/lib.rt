//! What each command comes to: its plan, or its first refusal, as definitions with laws over them.
#![tactic(auto)]

mod books;
mod drafts;
mod examples;
mod laws;
mod sizes;

pub use books::books_stay_good;
pub use drafts::{drafts_stay_fresh, ends_let_go, moves_are_seen, pushes_are_allowed};
pub use examples::worked_examples;
pub use laws::plans_may_open;
pub use sizes::plans_are_short;
