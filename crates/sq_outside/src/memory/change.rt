/// A call that changed a file in memory.
#[derive(Drop)]
pub(crate) enum Change {
    /// These bytes were written from a place on, where `count` were asked for.
    Written { at: u64, bytes: Vec<u8>, count: u64 },
    /// A cut to `asked` bytes was asked for, and `len` are left.
    Cut { asked: u64, len: u64 },
    Synced,
}

/// A change, and the number of the file.
#[derive(Drop)]
pub(crate) struct Entry {
    pub(crate) file: u8,
    pub(crate) change: Change,
}
