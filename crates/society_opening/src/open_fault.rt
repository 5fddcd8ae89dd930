//! Why a database is not opened.
ghost use Rattle.std.specs.Prelude.{◌≡◌};
ghost use Rattle.society_rows.specs.Faults.{fault_of_error};
ghost use Rattle.society_opening.specs.Reading.{reading_fault_by};
ghost use Rattle.society_opening.specs.Opening.{open_fault_by};

use crate::reading_fault::fault_of_reading;
use society_rows::RowFault;
use sqlite::Error;

/// Why a database is not opened as an office's tables.
#[derive(Clone, Copy, Debug, PartialEq, Eq, thiserror::Error)]
pub enum OpenFault {
    /// Memory was refused.
    #[error("memory")]
    Memory,
    /// The database could not be read or written.
    #[error("store")]
    Store,
    /// The database has no table, and was to be an office's.
    #[error("empty")]
    Empty,
    /// The database has tables, and they are not those of layout 1, 2 or 3, or its office cannot be read.
    #[error("schema")]
    Schema,
    /// The tables are those of another office.
    #[error("other office")]
    OtherOffice,
    /// The tables are not what the requests that they keep make of an empty book.
    #[error("damaged")]
    Damaged,
    /// The log is not as a stop of the office leaves it.
    #[error("log")]
    Log,
}

impl From<RowFault> for OpenFault {
    ghost from_gives = { λ fault told. told ≡ open_fault_by fault };

    fn from(fault: RowFault) -> OpenFault {
        match fault {
            // A count that has no room is told as want of memory.
            RowFault::Memory | RowFault::Overflow => OpenFault::Memory,
            RowFault::Refused(_) => OpenFault::Store,
            RowFault::Damaged | RowFault::Schema => OpenFault::Damaged,
        }
    }
}

impl From<Error> for OpenFault {
    ghost from_gives = { λ error told. told ≡ reading_fault_by (fault_of_error error) };

    fn from(error: Error) -> OpenFault {
        fault_of_reading(RowFault::from(error))
    }
}
