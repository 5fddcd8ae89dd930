//! Why a connection is given up.
use thiserror::Error;

/// Why a connection was given up.
#[derive(Clone, Copy, Debug, PartialEq, Eq, Error)]
pub enum FaultKind {
    /// The reader failed.
    #[error("read")]
    Read,
    /// The writer failed, or took no byte.
    #[error("write")]
    Write,
    /// Every turn gave bytes, and a further one was needed.
    #[error("turns")]
    Turns,
    /// Memory was refused before the first read.
    #[error("memory")]
    Memory,
}

/// A connection that was given up after so many requests.
#[derive(Clone, Copy, Debug, PartialEq, Eq, Error)]
#[error("the connection was given up")]
pub struct DeskFault {
    /// Why.
    pub kind: FaultKind,
    /// Requests that were answered before it, those whose answers could not be written with them.
    pub requests: u128,
}
