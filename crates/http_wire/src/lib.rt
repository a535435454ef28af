//! HTTP/1.1 on a stream of bytes (RFC 9112): requests are read back to back, and replies are written.
#![tactic(auto)]

mod buffer;
mod carry;
mod head;
mod read;
mod reply;
mod request;

pub use buffer::Buffer;
pub use carry::Carry;
pub use head::{MAX_BODY, MAX_FIELDS, MAX_HEAD, Refusal};
pub use reply::{Body, BodyKind, Reply, WriteFault, write_all, write_reply, write_two};
pub use request::{MAX_INPUT, Request, WireFault, judges_each, read_request, reads_one_way};
