//! The outside as the job system sees it: what is read, what is written, what outlasts a crash, and what time it is.
//!
//! Each kind of outside is a trait whose ghost members are its meaning. Code above is generic over these traits and proved
//! once. What a stream or a disk contains is exposed by the forms in memory and not by the real ones; how often it failed
//! is exposed by all.
#![tactic(auto)]

mod buffer;
mod clock;
mod disk;
mod failed;
mod host;
mod memory;
mod no_memory;
mod sink;
mod source;

pub use clock::{Clock, LAST};
pub use disk::{Disk, GREATEST_LENGTH};
pub use failed::Failed;
pub use host::clock::HostClock;
pub use host::file_disk::FileDisk;
pub use host::optional_file::OptionalFile;
pub use host::streams::{StreamSink, StreamSource};
pub use memory::clock::MemClock;
pub use memory::disk::MemDisk;
pub use memory::streams::{MemSink, MemSource, SureSource};
pub use memory::trickle::Trickle;
pub use no_memory::NoMemory;
pub use sink::Sink;
pub use source::Source;
