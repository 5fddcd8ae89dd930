//! Why a body is no return.
ghost use Rattle.std.specs.Prelude.{◌≡◌};
ghost use Rattle.perf_returns.specs.declared.fault.ReturnError.TheVariants.{Memory};

use std::alloc::{AllocError, AllocFailed};
use thiserror::Error;

/// A return fault: its number, 1 to 6, and the row at which it stands, the header being row 1 (profile).
#[derive(Clone, Copy, Debug, PartialEq, Eq)]
pub struct ReturnFault {
    pub number: u8,
    pub row: usize,
}

/// Why a body was not read: it has a return fault, or memory ran out.
#[derive(Debug, Drop, Error)]
pub enum ReturnError {
    #[error("the body is no return")]
    Csv(ReturnFault),
    #[error("out of memory")]
    Memory,
}

impl From<AllocError> for ReturnError {
    ghost from_gives = { λ _ e. e ≡ Memory };

    fn from(_e: AllocError) -> ReturnError {
        ReturnError::Memory
    }
}

impl<T: Drop> From<AllocFailed<T>> for ReturnError {
    ghost from_gives = { λ _ e. e ≡ Memory };

    fn from(_e: AllocFailed<T>) -> ReturnError {
        ReturnError::Memory
    }
}
