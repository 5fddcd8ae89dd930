//! What a failed reading of rows is told as.
ghost use Rattle.std.specs.Prelude.{◌≡◌};
ghost use Rattle.society_opening.specs.Reading.{reading_fault_by};

use crate::OpenFault;
use society_rows::RowFault;

/// What a fault of a reading is told as: want of memory, or else that the database failed.
pub(crate) fn fault_of_reading(fault: RowFault) -> OpenFault
    ensures value { result ≡ reading_fault_by fault }
{
    match fault {
        RowFault::Memory => OpenFault::Memory,
        _ => OpenFault::Store,
    }
}
