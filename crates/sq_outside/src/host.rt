//! The real outside. It exposes no content, and each `Err` of the real thing raises the count of faults.

pub(crate) mod clock;
pub(crate) mod file_disk;
pub(crate) mod optional_file;
pub(crate) mod streams;
#[cfg(test)]
mod test_folder;
