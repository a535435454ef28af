//! The program as one call: commands over settings, an input, an output, a disk and a clock.
#![tactic(auto)]

mod command;
mod end;
mod exec;
mod settings;
mod status;
#[cfg(test)]
mod tests;
mod trace;

pub use command::{is_command, run};
pub use end::End;
