//! What accounts have come to, written as balances.
ghost use Rattle.std.specs.Prelude.{◌≡◌};
ghost use Rattle.society_book.specs.Steps.{Never};
ghost use Rattle.book_derivation.specs.Deriving.{Derives};
ghost use Rattle.book_derivation.specs.Money.{AddsBalance, WritesBalances};
ghost use Rattle.society_rows.specs.Between.{Within};

use crate::writing::wrote;
use book_audit::{Totals, worked_out};
use society_book::column_of;
use society_rows::{BalanceRow, NewRows, RowFault, add};
use sqlite::{Alter, Transaction};

// Adds the balance of an account that has come to these units.
fn write_balance<S: Alter>(
    tx: &mut Transaction<'_, S>,
    account: &[u8],
    units: u64,
) -> Result<(), RowFault>
    ensures derives { Within S.Store tx.old tx.new (Derives Never) result (λ before after _. AddsBalance account.now units before after) }
{
    let units = worked_out(column_of(units))?;
    wrote(add(tx, NewRows::Balance(&BalanceRow { account, units })))
}

/// Writes what accounts have come to, to a table that has no balance.
pub(crate) fn write_balances<S: Alter>(
    tx: &mut Transaction<'_, S>,
    totals: &Totals,
) -> Result<(), RowFault>
    ensures derives { Within S.Store tx.old tx.new (Derives Never) result (λ before after _. WritesBalances totals.now before after) }
{
    for (account, units) in &totals.units {
        write_balance(tx, account.as_slice(), *units)?;
    }
    Ok(())
}
