//! Schedules as cron lines and phrases, in UTC.
#![tactic(auto)]

mod fields;
mod parse;
mod phrases;
mod times;
mod values;
mod words;

pub use fields::{Field, fields_are_spelled, fields_hold_items, items_are_spelled};
pub use parse::lines_are_spelled;
pub use phrases::phrases_are_spelled;
pub use times::{Line, Schedule, ScheduleFault, moments_end_with_a_day};
pub use values::Values;
