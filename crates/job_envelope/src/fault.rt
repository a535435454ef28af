ghost use Rattle.std.specs.Prelude.{◌≡◌};
ghost use Rattle.job_envelope.specs.declared.fault.EnvelopeFault.TheVariants.{NoMemory as OutOfMemory};

use crate::Member;
use job_states::NoMemory;
use std::alloc::{AllocError, AllocFailed};
use thiserror::Error;

/// Why bytes are no envelope that is accepted: the first fault, in this order.
#[derive(Debug, Drop, Error)]
pub enum EnvelopeFault {
    /// There are more than 8192 bytes: this many.
    #[error("{len} bytes are too many for an envelope")]
    TooLong { len: usize },
    /// They aren't the UTF-8 text of a JSON object.
    #[error("no JSON object")]
    NotJson,
    /// A member that is needed isn't there.
    #[error("{} is missing", .member.as_str())]
    Missing { member: Member },
    /// A member's value is of the wrong kind, or out of its range.
    #[error("{} is of the wrong kind or out of its range", .member.as_str())]
    WrongKind { member: Member },
    /// A member's text isn't an instant from 1970 up to the end of the year 9998.
    #[error("{} is no instant from 1970 to 9998", .member.as_str())]
    DateRefused { member: Member },
    /// The arguments hold a number that isn't whole, or isn't from -2^63 to 2^64-1.
    #[error("arguments hold a number that isn't whole, or isn't from -2^63 to 2^64-1")]
    FloatArgument,
    /// There was no memory.
    #[error("out of memory")]
    NoMemory,
}

impl From<NoMemory> for EnvelopeFault {
    ghost from_gives = { λ _ e. e ≡ OutOfMemory };

    fn from(_: NoMemory) -> Self {
        EnvelopeFault::NoMemory
    }
}

impl From<AllocError> for EnvelopeFault {
    ghost from_gives = { λ _ e. e ≡ OutOfMemory };

    fn from(_: AllocError) -> Self {
        EnvelopeFault::NoMemory
    }
}

impl<T: Drop> From<AllocFailed<T>> for EnvelopeFault {
    ghost from_gives = { λ _ e. e ≡ OutOfMemory };

    fn from(_: AllocFailed<T>) -> Self {
        EnvelopeFault::NoMemory
    }
}
