//! Why a statement gave no rows or wrote none.
ghost use Rattle.std.specs.Prelude.{◌≡◌};
ghost use Rattle.society_rows.specs.Faults.{fault_of_error, is_of_medium};
ghost use Rattle.society_rows.specs.declared.fault.RowFault.TheVariants.{Memory};

use sqlite::{Error, ErrorCode};
use std::alloc::{AllocError, AllocFailed};

/// Why a statement gave no rows or wrote none, or rows do not pass: memory ran out; the statement doesn't fit the schema; the rows are
/// not what an office writes, by a value of another form than its column's or by what stands in others (`Damaged`); a sum of units
/// doesn't fit 64 bits; or SQLite refused the statement, or the store failed, as it said (`Refused`).
#[derive(Clone, Copy, Debug, PartialEq, Eq, Drop, thiserror::Error)]
pub enum RowFault {
    #[error("out of memory")]
    Memory,
    #[error("the statement does not fit the schema")]
    Schema,
    #[error("damaged rows")]
    Damaged,
    #[error("more units than 64 bits hold")]
    Overflow,
    #[error("the database refused")]
    Refused(Error),
}

impl RowFault {
    /// Whether the fault tells of the medium: of the database's files, of a connection that was shut, or of a limit of steps.
    pub fn is_of_medium(&self) -> bool
        ensures { result ≡ is_of_medium self.now }
    {
        matches!(
            self,
            RowFault::Refused(Error::SqliteFailure(
                ErrorCode::SystemIoFailure
                    | ErrorCode::DatabaseCorrupt
                    | ErrorCode::DiskFull
                    | ErrorCode::Closed
                    | ErrorCode::OperationInterrupted
            ))
        )
    }
}

impl From<Error> for RowFault {
    ghost from_gives = { λ error fault. fault ≡ fault_of_error error };

    fn from(error: Error) -> RowFault {
        match error {
            Error::SqliteFailure(ErrorCode::OutOfMemory) => RowFault::Memory,
            Error::SqliteFailure(_) => RowFault::Refused(error),
            Error::InvalidColumnIndex(_)
            | Error::InvalidColumnType(_, _)
            | Error::IntegralValueOutOfRange(_)
            | Error::Utf8Error(_) => RowFault::Damaged,
            Error::QueryReturnedNoRows => RowFault::Refused(error),
            _ => RowFault::Schema,
        }
    }
}

impl From<AllocError> for RowFault {
    ghost from_gives = { λ _ fault. fault ≡ Memory };

    fn from(_e: AllocError) -> RowFault {
        RowFault::Memory
    }
}

impl<T: Drop> From<AllocFailed<T>> for RowFault {
    ghost from_gives = { λ _ fault. fault ≡ Memory };

    fn from(_e: AllocFailed<T>) -> RowFault {
        RowFault::Memory
    }
}
