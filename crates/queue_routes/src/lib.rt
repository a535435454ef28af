//! What a request to the job system's service asks for: a command, or the fault of its body.
#![tactic(auto)]

mod ask;
mod bodies;
mod fault;
mod routes;

pub use ask::{Ask, ask_of};
pub use fault::{BodyFault, BodyMember};
