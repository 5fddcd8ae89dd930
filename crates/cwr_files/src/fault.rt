//! Why a body is no transmission.
ghost use Rattle.std.specs.Prelude.{◌≡◌};
ghost use Rattle.cwr_files.specs.declared.fault.ReadFault.TheVariants.{Memory};

use std::alloc::{AllocError, AllocFailed};
use thiserror::Error;

/// A file fault: its number, 1 to 13, and the line at which it stands, from 1 (profile).
#[derive(Clone, Copy, Debug, PartialEq, Eq)]
pub struct FileFault {
    pub number: u8,
    pub line: usize,
}

/// Why a body was not read: it has a file fault, or memory ran out.
#[derive(Debug, Drop, Error)]
pub enum ReadFault {
    /// It has this fault, the first.
    #[error("the body is no transmission of the sender")]
    File(FileFault),
    /// Memory ran out; it may be read again.
    #[error("out of memory")]
    Memory,
}

impl From<AllocError> for ReadFault {
    ghost from_gives = { λ _ e. e ≡ Memory };

    fn from(_e: AllocError) -> ReadFault {
        ReadFault::Memory
    }
}

impl<T: Drop> From<AllocFailed<T>> for ReadFault {
    ghost from_gives = { λ _ e. e ≡ Memory };

    fn from(_e: AllocFailed<T>) -> ReadFault {
        ReadFault::Memory
    }
}
