//! Statements of an audit: each reads rows in a transaction and judges none.
ghost use Rattle.std.specs.Prelude.{◌≡◌, IfErr, IfOk, Ok};
ghost use Rattle.society_book.specs.Steps.{Examines, Never};
ghost use Rattle.society_rows.specs.declared.fault.RowFault.TheVariants.{Memory};
ghost use Rattle.society_rows.specs.Between.{Within};
ghost use Rattle.society_rows.specs.Listings.{ListsAll};
ghost use Rattle.society_rows.specs.Questions.{RowsAnswer};

use society_rows::{Question, RowFault, TableName, all_rows, answer};
use sqlite::{Alter, Row, Transaction};

/// All rows of a table, by its key; `Memory` or `Refused` where memory or the database failed.
pub(crate) fn list_of<S: Alter>(
    tx: &mut Transaction<'_, S>,
    table: TableName,
) -> Result<Vec<Row>, RowFault>
    ensures examined { Within S.Store tx.old tx.new (Examines Never) result (λ db rows. ListsAll table db rows.items) }
{
    all_rows(tx, table)
}

/// The rows that answer a question; `Memory` or `Refused` where memory or the database failed.
pub(crate) fn ask<S: Alter>(
    tx: &mut Transaction<'_, S>,
    question: Question<'_>,
) -> Result<Vec<Row>, RowFault>
    ensures examined { Within S.Store tx.old tx.new (Examines Never) result (λ db rows. RowsAnswer question.entry db rows.items) }
{
    answer(tx, question)
}

/// What is worked out of rows that were read. It fails by want of memory, or where a number has no room, which is told as that: of what
/// was read no part is missing, so `Damaged` is told of none.
pub fn worked_out<X: Drop>(found: Result<X, RowFault>) -> Result<X, RowFault>
    ensures value { IfOk result (λ x. found ≡ Ok x) }
    ensures err { IfErr result (λ fault. fault ≡ Memory) }
{
    match found {
        Ok(x) => Ok(x),
        Err(_) => Err(RowFault::Memory),
    }
}
