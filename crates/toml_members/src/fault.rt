ghost use Rattle.std.specs.Prelude.{◌≡◌, Err, IsErr};
ghost use Rattle.job_states.specs.Judged.{Gives};
ghost use Rattle.toml_members.specs.Key.{key_in};
ghost use Rattle.toml_members.specs.declared.fault.SettingsFault.TheVariants.{NoMemory as OutOfMemory};

use crate::Key;
use job_states::NoMemory;
use std::alloc::{AllocError, AllocFailed, Global};
use thiserror::Error;

/// Why settings aren't accepted.
#[derive(Debug, Drop, Error)]
pub enum SettingsFault {
    /// The first thing that is wrong, and the key that it is about, as `classes[0].name`. The numbers are
    ///
    /// - 1: the text is no TOML document; the key is `document`
    /// - 2: there is no such key
    /// - 3: a key that is needed is missing
    /// - 4: the value is of the wrong kind
    /// - 5: the value isn't allowed
    ///
    /// and those that a caller has for what it judges beside.
    #[error("the settings are refused: {number} {key}")]
    Refused { number: u8, key: Key },
    /// There was no memory.
    #[error("out of memory")]
    NoMemory,
}

impl SettingsFault {
    pub const NO_DOCUMENT: u8 = 1;

    pub const UNKNOWN: u8 = 2;

    pub const MISSING: u8 = 3;

    pub const WRONG_KIND: u8 = 4;

    pub const NOT_ALLOWED: u8 = 5;
}

/// The refusal of a key of a table. At the top, whose place is the empty text, the key stands alone.
pub fn refused<T>(alloc: Global, number: u8, place: &str, key: &str) -> Result<T, SettingsFault>
    ensures given { Gives SettingsFault.NoMemory result (Err (SettingsFault.Refused number (key_in place.now key.now))) }
    ensures refused { IsErr result }
{
    Err(SettingsFault::Refused {
        number,
        key: Key::in_table(alloc, place, key)?,
    })
}

impl From<NoMemory> for SettingsFault {
    ghost from_gives = { λ _ e. e ≡ OutOfMemory };

    fn from(_: NoMemory) -> Self {
        SettingsFault::NoMemory
    }
}

impl From<AllocError> for SettingsFault {
    ghost from_gives = { λ _ e. e ≡ OutOfMemory };

    fn from(_: AllocError) -> Self {
        SettingsFault::NoMemory
    }
}

impl<T: Drop> From<AllocFailed<T>> for SettingsFault {
    ghost from_gives = { λ _ e. e ≡ OutOfMemory };

    fn from(_: AllocFailed<T>) -> Self {
        SettingsFault::NoMemory
    }
}
