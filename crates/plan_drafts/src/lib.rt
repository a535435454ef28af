//! A plan while it is made: transitions one after another, each chosen where those before it leave the store.
#![tactic(auto)]

mod draft;
mod end;
mod enqueue;
mod finish;
mod push;
mod pushed;

pub use draft::Draft;
pub use enqueue::outcome_of;
pub use pushed::Pushed;
