//! Whether the tables of an office hold the book that they stand for.
ghost use Rattle.std.specs.Prelude.{◌≡◌};
ghost use Rattle.book_audit.specs.Audited.{IsNumbered, IsRegistered};
ghost use Rattle.book_audit.specs.Examining.{HoldsNot};
ghost use Rattle.society_book.specs.Steps.{Examines};
ghost use Rattle.society_book.specs.Kept.{HoldsOwnBook};
ghost use Rattle.society_rows.specs.Between.{Within};

use crate::entries::entries_in;
use crate::lines::lines_agree;
use crate::paying::money_agrees;
use share_rules::Office;
use society_rows::RowFault;
use sqlite::{Alter, Transaction};
use std::alloc::Global;

/// That the tables hold the book that they stand for, with exactly what is derived of it; else `Damaged`, and `Memory` or `Refused`
/// where memory or the database failed. Nothing is written.
pub fn audit<S: Alter>(
    alloc: Global,
    tx: &mut Transaction<'_, S>,
    office: &Office,
) -> Result<(), RowFault>
    ensures examined { Within S.Store tx.old tx.new (Examines (HoldsNot office.now)) result (λ db _. IsRegistered office.now db → IsNumbered db → HoldsOwnBook office.now db) }
{
    let senders = entries_in(alloc, tx)?;
    lines_agree(alloc, tx, office, senders.as_slice())?;
    money_agrees(alloc, tx, office)
}
