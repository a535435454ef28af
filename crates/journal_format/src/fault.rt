//! Why bytes aren't read or transactions aren't written.

use std::alloc::{AllocError, AllocFailed};
use thiserror::Error;

/// Why no transactions are read.
#[derive(Debug, Drop, Error)]
pub enum ReadFault {
    /// No prefix of the bytes is a payload of transactions. `at` is the place of the first byte that no payload continues,
    /// or the length where the bytes end too early.
    #[error("no payload of transactions goes on at byte {at}")]
    BadRecord { at: usize },
    #[error("out of memory")]
    NoMemory,
}

/// Why transactions aren't written.
#[derive(Debug, Drop, Error)]
pub enum WriteFault {
    /// Their payload has more than 16777216 bytes: this many.
    #[error("the payload would have {len} bytes")]
    TooLarge { len: usize },
    #[error("out of memory")]
    NoMemory,
}

impl From<AllocError> for WriteFault {
    ghost use Rattle.std.specs.Prelude.{◌≡◌};
    ghost use Rattle.journal_format.specs.declared.fault.WriteFault.TheVariants as fault;

    ghost from_gives = { λ _ e. e ≡ fault.NoMemory };

    fn from(_: AllocError) -> Self {
        WriteFault::NoMemory
    }
}

impl<T: Drop> From<AllocFailed<T>> for WriteFault {
    ghost use Rattle.std.specs.Prelude.{◌≡◌};
    ghost use Rattle.journal_format.specs.declared.fault.WriteFault.TheVariants as fault;

    ghost from_gives = { λ _ e. e ≡ fault.NoMemory };

    fn from(_: AllocFailed<T>) -> Self {
        WriteFault::NoMemory
    }
}
