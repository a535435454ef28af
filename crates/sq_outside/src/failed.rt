use thiserror::Error;

/// A call on the outside failed, and the object counted it.
#[derive(Clone, Copy, Debug, PartialEq, Eq, Error)]
#[error("the outside failed")]
pub struct Failed;
