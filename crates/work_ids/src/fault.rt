//! Why bytes are no identifier.
use thiserror::Error;

/// Why bytes are no identifier; where several hold it is the least, in this order.
#[derive(Clone, Copy, Debug, PartialEq, Eq, Error)]
pub enum IdFault {
    /// Too short or too long.
    #[error("length")]
    Length,
    /// A byte that may not stand where it stands.
    #[error("character")]
    Character,
    /// The check digit is another one.
    #[error("check digit")]
    CheckDigit,
}
