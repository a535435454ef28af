//! The journal on a disk: payloads that are appended one after another, and what a crash leaves of them.
#![tactic(auto)]

mod fault;
mod frame;
mod gate;
mod heading;
mod journal;
mod laws;
mod loose;
mod make;
mod reading;
mod window;

pub use fault::{DiskFault, OpenFault};
pub use journal::{Journal, Stage};
pub use laws::{kept_laws, one_recovery, shape_kept, stands_kept};
