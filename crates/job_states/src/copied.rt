ghost use Rattle.std.specs.Prelude.{◌≡◌, IfOk};

use crate::NoMemory;

/// A type whose values can be copied where there is memory.
pub trait Copied: Clone {
    /// An equal value.
    final fn copy(&self) -> Result<Self, NoMemory>
    where
        Self: Sized,
        ensures { IfOk result (λ copy. copy ≡ self.now) }
    {
        Ok(self.clone()?)
    }

    /// A clone is equal to its original.
    ghost exact: { (original clone : Self) → Self.is_clone original clone → clone ≡ original };
}

impl Copied for u8 {
    ghost exact = { λ _ _ same. same };
}
