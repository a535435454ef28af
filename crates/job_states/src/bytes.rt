use crate::{Copied, List, NoMemory};
use std::alloc::Global;
use std::marker::Model;

/// Bytes of any kind. A contract sees them as a list.
#[derive(Clone, Debug, PartialEq, Eq, Drop)]
pub struct Bytes(List<u8>);

impl Model for Bytes {
    ghost use Rattle.std.specs.Prelude.{ℕ, List};

    ghost Value = { List ℕ };

    ghost view = { λ b. b.0 };

    ghost inverse = { λ bytes. record { 0 = bytes } };
}

impl Bytes {
    ghost use Rattle.std.specs.Prelude.{◌≡◌, ◌==◌, length, IfOk};

    /// The same bytes.
    pub fn read(alloc: Global, bytes: &[u8]) -> Result<Self, NoMemory>
        ensures { IfOk result (λ same. same ≡ bytes.now) }
    {
        Ok(Bytes::of(Vec::from_slice(alloc, bytes)?))
    }

    /// The bytes of a vector. It takes no memory.
    pub fn of(bytes: Vec<u8>) -> Self
        ensures { result ≡ bytes.items }
    {
        Bytes(List::of(bytes))
    }

    /// The bytes.
    pub fn as_slice(&self) -> &[u8]
        ensures { result.now ≡ self.now }
    {
        self.0.as_slice()
    }

    /// How many bytes there are.
    pub fn len(&self) -> usize
        ensures { result ≡ length self.now }
    {
        self.0.len()
    }

    /// Is there no byte?
    pub fn is_empty(&self) -> bool
        ensures { result ≡ (length self.now == 0) }
    {
        self.0.is_empty()
    }
}

impl Copied for Bytes {
    ghost use Rattle.std.proofs.Common.{rules};

    ghost exact = { Prim.search rules };
}
