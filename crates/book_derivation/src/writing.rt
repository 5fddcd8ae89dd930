//! What a failed write is told as.
ghost use Rattle.std.specs.Prelude.{◌≡◌, IfErr, IfOk, Ok};
ghost use Rattle.std.specs.Result.{IsErrAnd};
ghost use Rattle.book_derivation.specs.Writing.{writing_fault_by};

use society_rows::RowFault;

/// What a fault of a write is told as: itself where it tells of the database's medium, and else `Memory`, since the rows of a book bring
/// about nothing else.
pub fn fault_of_writing(fault: RowFault) -> RowFault
    ensures value { result ≡ writing_fault_by fault }
{
    if fault.is_of_medium() {
        fault
    } else {
        RowFault::Memory
    }
}

/// What was written, or why it was not.
pub(crate) fn wrote(done: Result<(), RowFault>) -> Result<(), RowFault>
    ensures done { IfOk result (λ _. done ≡ Ok tt) }
    ensures err { IfErr result (λ e. IsErrAnd done (λ fault. e ≡ writing_fault_by fault)) }
{
    match done {
        Ok(()) => Ok(()),
        Err(fault) => Err(fault_of_writing(fault)),
    }
}
