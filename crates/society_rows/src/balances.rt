//! The table of balances.
ghost use Rattle.std.specs.Prelude.{◌≡◌, IfOk, IfErr, FitsSigned};
ghost use Rattle.std.specs.Int.{w64};
ghost use Rattle.sqlite.specs.State.{HasCleanDisk};
ghost use Rattle.sqlite.specs.Values.{bound};
ghost use Rattle.society_rows.specs.declared.fault.RowFault.TheVariants.{Damaged};
ghost use Rattle.society_rows.specs.Balances.{HasUnits, AddsUnits, HidesUnits, RefusesUnits};
ghost use Rattle.society_rows.specs.Effects.{IsAllOrNothing, OnlyFails, Writes};
ghost use Rattle.society_rows.specs.Folds.{ReadsInside};
ghost use Rattle.society_rows.specs.Forms.{IsRead, balance_forms};
ghost use Rattle.society_rows.specs.Layout.{balances};
ghost use Rattle.society_rows.specs.Rows.{balance_values};
ghost use Rattle.society_rows.specs.Stored.{HasLayout, Puts};
ghost use Rattle.society_rows.specs.Between.{Within, within};

use crate::reading::{integer, text};
use crate::shapes::{Rows, TableShape};
use crate::statement::run;
use crate::{Question, RowFault, answer};
use sqlite::{Alter, Row, Transaction};
use sqlite_schema::schema::Kind::{Integer, Text};
use sqlite_value::value::ValueRef;

/// The table, and the statements over all of it.
pub(crate) const BALANCES: TableShape<'static> = TableShape {
    name: "balances",
    columns: &[("account", Text), ("units", Integer)],
    rows: Rows::Keyed,
    key: &[1],
    parents: &[],
    create: "CREATE TABLE balances (account TEXT NOT NULL PRIMARY KEY, units INTEGER NOT NULL) STRICT",
    listing: "SELECT account, units FROM balances ORDER BY account",
    rowids: "SELECT rowid FROM balances",
};

/// What adds a row.
pub(crate) const INSERT: &str = "INSERT INTO balances (account, units) VALUES (?1, ?2)";

/// The query for the balance of an account.
pub(crate) const OF_ACCOUNT: &str =
    "SELECT account, units FROM balances WHERE account = ?1 ORDER BY account";

/// What an account has: its units of money over all pools.
#[derive(Clone, Copy, Debug)]
pub struct BalanceRow<'a> {
    pub account: &'a [u8],
    pub units: i64,
}

impl<'a> BalanceRow<'a> {
    /// The row that these values are, in the order of the columns; else `Damaged`.
    #[tactic(auto, using(crate::proofs::lemmas::changes::Columns::row_columns))]
    pub fn from_row(row: &'a Row) -> Result<BalanceRow<'a>, RowFault>
        ensures value { IfOk result (λ x. balance_values x ≡ row.now) }
        ensures read { IsRead balance_forms row.now result }
        ensures range { IfOk result (λ x. FitsSigned w64 x.units) }
        ensures err { IfErr result (λ e. e ≡ Damaged) }
    {
        if row.column_count() != 2 {
            return Err(RowFault::Damaged);
        }
        Ok(BalanceRow {
            account: text(row, 0)?,
            units: integer(row, 1)?,
        })
    }

    /// The values of its columns.
    pub(crate) fn params(&self) -> [ValueRef<'_>; 2]
        ensures { bound result ≡ balance_values self.now }
    {
        [ValueRef::Text(self.account), ValueRef::Int(self.units)]
    }
}

// Puts a balance, in place of the one that is there under its key.
fn put_balance<S: Alter>(tx: &mut Transaction<'_, S>, row: &BalanceRow<'_>) -> Result<(), RowFault>
    ensures written { Within S.Store tx.old tx.new Writes result
        (Puts balances (balance_values row.now)) }
    ensures whole { within S.Store tx.old tx.new IsAllOrNothing result }
    ensures err { within S.Store tx.old tx.new OnlyFails result }
{
    run(
        tx,
        "INSERT INTO balances (account, units) VALUES (?1, ?2) ON CONFLICT (account) DO UPDATE SET account = excluded.account, units = excluded.units",
        &row.params(),
    )
}

/// The units of an account, 0 where it has no balance; `Damaged` where it has two.
pub(crate) fn units_of<S: Alter>(
    tx: &mut Transaction<'_, S>,
    account: &[u8],
) -> Result<i64, RowFault>
    ensures read { Within S.Store tx.old tx.new ReadsInside result
        (HasUnits account.now) }
    ensures cause { within S.Store tx.old tx.new (λ old new. HasCleanDisk new → HasLayout old.now → IfErr result (HidesUnits account.now old.now.trees)) }
    ensures range { IfOk result (λ n. FitsSigned w64 n) }
{
    let rows = answer(tx, Question::Balance(account))?;
    match rows.as_slice() {
        [] => Ok(0),
        [row] => Ok(BalanceRow::from_row(row)?.units),
        _ => Err(RowFault::Damaged),
    }
}

/// Adds units to the balance of an account; `Overflow` where the sum doesn't fit.
pub fn add_units<S: Alter>(
    tx: &mut Transaction<'_, S>,
    account: &[u8],
    units: i64,
) -> Result<(), RowFault>
    ensures written { Within S.Store tx.old tx.new Writes result
        (AddsUnits account.now units) }
    ensures whole { within S.Store tx.old tx.new (λ old new. HasLayout old.now → IsAllOrNothing old new result) }
    ensures cause { within S.Store tx.old tx.new (λ old new. HasCleanDisk new → HasLayout old.now → IfErr result (RefusesUnits account.now units old.now.trees)) }
{
    let before = units_of(tx, account)?;
    let Some(sum) = before.checked_add(units) else {
        return Err(RowFault::Overflow);
    };
    put_balance(
        tx,
        &BalanceRow {
            account,
            units: sum,
        },
    )
}
