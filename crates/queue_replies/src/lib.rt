//! The replies of the service: to each answer, to each refusal of a command, and to what is wrong with a request.
#![tactic(auto)]

mod answers;
mod faults;
mod json;
mod refusals;

pub use answers::reply_of;
pub use faults::{
    body_not_json, envelope_fault, fault_reply, member_missing, member_wrong_kind, not_built,
    reply_disk, reply_memory,
};
pub use refusals::reply_refused;
