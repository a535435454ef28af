//! Rows of tables, what is made of their words, and what they are compared with.

use job_states::{Name, Text};
use std::alloc::Global;
use std::process::Abort;

/// What stands before ` => ` in a row, and what after it.
pub(crate) fn row<'a>(rt: &impl Abort, row: &'a str) -> (&'a str, &'a str) {
    row.split_once(" => ").expect(rt, row)
}

pub(crate) fn name(rt: &impl Abort, alloc: Global, text: &str) -> Name {
    Name::read(alloc, text).expect(rt, text)
}

pub(crate) fn text(rt: &impl Abort, alloc: Global, text: &str) -> Text {
    Text::read(alloc, text).expect(rt, "memory")
}

/// `of` tells the row from the others.
pub(crate) fn same(rt: &impl Abort, found: &str, expected: &str, of: &str) {
    assert_eq!(rt; found, expected, "{of}");
}
