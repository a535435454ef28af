use crate::{Copied, NoMemory, Text};
use std::alloc::Global;
use std::fmt;
use std::marker::Model;
use thiserror::Error;

/// A text of 1 to 128 bytes: the name of a class, a queue, a task, an error or a process, or a job's own id.
#[derive(Clone, Debug, PartialEq, Eq, PartialOrd, Ord, Hash, Drop)]
pub struct Name(Text);

impl Model for Name {
    ghost use Rattle.std.specs.Prelude.{ℕ, List};
    ghost use Rattle.job_states.specs.Length.{IsName};

    ghost Value = { List ℕ };

    ghost view = { λ n. n.0 };

    ghost invariant = { λ n. IsName n.0 };

    ghost inverse = { λ bytes. record { 0 = bytes } };
}

/// Why a text is no name.
#[derive(Clone, Copy, Debug, PartialEq, Eq, Error)]
pub enum NameFault {
    /// It is empty.
    #[error("a name is empty")]
    Empty,
    /// It has more than 128 bytes: this many.
    #[error("a name has {len} bytes, more than 128")]
    TooLong { len: usize },
    /// There was no memory for it.
    #[error("out of memory")]
    NoMemory,
}

impl From<NoMemory> for NameFault {
    ghost use Rattle.std.specs.Prelude.{◌≡◌};
    ghost use Rattle.job_states.specs.declared.name.NameFault.TheVariants as fault;

    ghost from_gives = { λ _ e. e ≡ fault.NoMemory };

    fn from(_: NoMemory) -> Self {
        NameFault::NoMemory
    }
}

impl Name {
    ghost use Rattle.std.specs.Prelude.{◌≡◌, IfOk, IfErr, IsUtf8};
    ghost use Rattle.job_states.specs.Length.{IsName};
    ghost use Rattle.job_states.specs.Name.{IsNameFault};

    /// The greatest length in bytes.
    pub const MAX_LEN: usize = 128;

    /// The name with the same bytes.
    pub fn read(alloc: Global, text: &str) -> Result<Self, NameFault>
        ensures same { IfOk result (λ name. name ≡ text.now) }
        ensures name { IfOk result IsName }
        ensures fault { IfErr result (IsNameFault text.now) }
    {
        if text.is_empty() {
            return Err(NameFault::Empty);
        }
        if text.len() > Name::MAX_LEN {
            return Err(NameFault::TooLong { len: text.len() });
        }
        Ok(Name(Text::read(alloc, text)?))
    }

    /// The name as a text.
    pub fn as_text(&self) -> &Text
        ensures same { result.now ≡ self.now }
        ensures name { IsName self.now }
    {
        &self.0
    }

    /// The name as a `str`.
    pub fn as_str(&self) -> &str
        ensures same { result.now ≡ self.now }
        ensures name { IsName self.now }
        ensures utf8 { IsUtf8 self.now }
    {
        self.0.as_str()
    }

    /// The name's bytes.
    pub fn as_bytes(&self) -> &[u8]
        ensures same { result.now ≡ self.now }
        ensures name { IsName self.now }
    {
        self.0.as_bytes()
    }
}

impl Copied for Name {
    ghost use Rattle.std.proofs.Common.{rules};

    ghost exact = { Prim.search rules };
}

impl fmt::Display for Name {
    fn fmt<W: fmt::Write>(&self, f: &mut fmt::Formatter<W>) -> fmt::Result {
        f.write_str(self.as_str())
    }
}
