//! The text of the journal: the header of a file, and a record's payload of transactions.
//!
//! [`write_tx`] and [`read_tx`] are exact: each list of transactions has one text, and a refusal names the first byte that
//! no payload continues. `docs/JOURNAL.md` gives the format byte by byte.
#![tactic(auto)]

mod fault;
mod file_header;
mod laws;
mod read;
mod reader;
mod rows;
mod texts;
mod transitions;
mod utf8;
mod write;
mod writer;

pub use fault::{ReadFault, WriteFault};
pub use file_header::{Heading, header, read_header};
pub use laws::{one_list_of_records, one_text};
pub use read::read_tx;
pub use write::write_tx;
