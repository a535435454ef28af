//! The types that the job system's layers share: jobs and their states, transitions, commands, answers and refusals.
//!
//! A contract sees a [`Name`], a [`Text`] and [`Bytes`] as a list of bytes, and a [`List`] as the list of its items, so
//! that two values are equal in a clause where they mean the same.
#![tactic(auto)]

mod answer;
mod bytes;
mod command;
mod copied;
mod item;
mod job;
mod list;
mod moment;
mod name;
mod no_memory;
mod row;
mod text;
mod transition;

pub use answer::{Answer, Made, Outcome, Polled, Refused};
pub use bytes::Bytes;
pub use command::{Arg, Command, Kind, NewJob};
pub use copied::Copied;
pub use item::Item;
pub use job::{Counted, JobId, JobRow, Limited, Pid, Stage, State};
pub use list::List;
pub use moment::{LAST, Moment, later};
pub use name::{Name, NameFault};
pub use no_memory::NoMemory;
pub use row::{Mode, Row, compare_rows};
pub use text::Text;
pub use transition::{Counters, Put, Transaction, Transition, WrongState};
