//! The members of a TOML document, each judged by its kind and range, with the first thing that is wrong and its key.
#![tactic(auto)]

mod array;
mod document;
mod fault;
mod key;
mod kind;
mod names;
mod whole;

pub use array::{Element, array_at, array_of, items_at, items_in};
pub use document::document_of;
pub use fault::{SettingsFault, refused};
pub use key::Key;
pub use kind::{flag_in, known, name_at, name_in, name_or, needed, optional, section, text_in};
pub use names::names_in;
pub use whole::{Whole, count_at, count_or_word, whole_at, whole_in};
