//! Active Job's serialized jobs: the JSON that `ActiveJob::Core#serialize` gives, read into a job that is asked for, and
//! written for one.
#![tactic(auto)]

mod arguments;
mod counts;
mod envelope;
mod fault;
mod float;
mod kind;
mod member;
mod written;

pub use envelope::Envelope;
pub use fault::EnvelopeFault;
pub use member::Member;
