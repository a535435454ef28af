//! The lines of a trace: what each asks for, and what is printed for it.
//!
//! [`Lines`] reads one line after another from a source, by [`read_line`], which reads a line into a [`Line`]. [`Printed`] is
//! what is printed. Nothing is done here of what a line asks for.
#![tactic(auto)]

mod command;
mod input;
mod job;
mod line;
mod printed;
mod words;

pub use input::{InputFault, Lines, judges_each, reads_one_way};
pub use line::{Line, LineFault, read_line};
pub use printed::Printed;
