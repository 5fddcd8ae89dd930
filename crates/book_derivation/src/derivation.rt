//! What is derived of a book, written to tables that have its own rows alone.
ghost use Rattle.std.specs.Prelude.{◌≡◌};
ghost use Rattle.book_derivation.specs.Deriving.{Derives, DerivesBook, LacksBook};
ghost use Rattle.society_rows.specs.Between.{Within};

use crate::lines::write_lines;
use crate::money::write_money;
use book_audit::entries_in;
use share_rules::Office;
use society_rows::RowFault;
use sqlite::{Alter, Transaction};
use std::alloc::Global;

/// Writes what is derived of the book whose own rows the tables have, where they have nothing that is derived; `Damaged` where the rows are
/// those of no book, and `Memory` or `Refused` where memory or the database failed. The rows of the book itself stay as they were.
pub fn derive<S: Alter>(
    alloc: Global,
    tx: &mut Transaction<'_, S>,
    office: &Office,
) -> Result<(), RowFault>
    ensures derives { Within S.Store tx.old tx.new (Derives (LacksBook office.now)) result (λ before after _. DerivesBook office.now before after) }
{
    let senders = entries_in(alloc, tx)?;
    write_lines(alloc, tx, office, senders.as_slice())?;
    write_money(alloc, tx, office)
}
