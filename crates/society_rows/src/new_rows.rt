//! Rows that are added to the tables, each statement one or two of them.
ghost use Rattle.std.specs.Prelude.{◌≡◌};
ghost use Rattle.sqlite.specs.Values.{bound};
ghost use Rattle.society_rows.specs.Effects.{BlamesMedium, IsAllOrNothing, OnlyFails, Writes};
ghost use Rattle.society_rows.specs.NewRows.{rows_added, insert_text, one_after_another};
ghost use Rattle.society_rows.specs.Stored.{Adds};
ghost use Rattle.society_rows.specs.TableNames.{table_called};
ghost use Rattle.society_rows.specs.Between.{Within, within};

use crate::statement::run;
use crate::{
    BalanceRow, CreditRow, MechanicalPoolRow, OfficeRow, PoolCutRow, PoolReturnRow, PoolRow,
    RecordingRow, ReturnRow, RowFault, SegmentEndRow, TransmissionRow, VerdictRow, VersionRow,
    balances, credits, mechanical_pools, office, pool_cuts, pool_returns, pools, recordings,
    returns, segment_ends, transmissions, verdicts, versions,
};
use sqlite::{Alter, Transaction};
use sqlite_value::value::ValueRef;

/// What one statement adds to a table: a row, or two.
#[derive(Clone, Copy)]
pub enum NewRows<'a> {
    Office(&'a OfficeRow<'a>),
    Transmission(&'a TransmissionRow<'a>),
    Return(&'a ReturnRow<'a>),
    Pool(&'a PoolRow),
    PoolCut(&'a PoolCutRow<'a>),
    PoolCuts(&'a PoolCutRow<'a>, &'a PoolCutRow<'a>),
    PoolReturn(&'a PoolReturnRow<'a>),
    PoolReturns(&'a PoolReturnRow<'a>, &'a PoolReturnRow<'a>),
    Verdict(&'a VerdictRow<'a>),
    Verdicts(&'a VerdictRow<'a>, &'a VerdictRow<'a>),
    Version(&'a VersionRow<'a>),
    Versions(&'a VersionRow<'a>, &'a VersionRow<'a>),
    Recording(&'a RecordingRow<'a>),
    Recordings(&'a RecordingRow<'a>, &'a RecordingRow<'a>),
    Credit(&'a CreditRow<'a>),
    Credits(&'a CreditRow<'a>, &'a CreditRow<'a>),
    Balance(&'a BalanceRow<'a>),
    SegmentEnd(&'a SegmentEndRow<'a>),
    MechanicalPool(&'a MechanicalPoolRow),
}

// The statement that adds them.
fn insert_of(rows: NewRows<'_>) -> &'static str
    ensures { result.now ≡ insert_text rows.entry }
{
    match rows {
        NewRows::Office(_) => office::INSERT,
        NewRows::Transmission(_) => transmissions::INSERT,
        NewRows::Return(_) => returns::INSERT,
        NewRows::Pool(_) => pools::INSERT,
        NewRows::PoolCut(_) => pool_cuts::INSERT,
        NewRows::PoolCuts(_, _) => pool_cuts::INSERT_TWO,
        NewRows::PoolReturn(_) => pool_returns::INSERT,
        NewRows::PoolReturns(_, _) => pool_returns::INSERT_TWO,
        NewRows::Verdict(_) => verdicts::INSERT,
        NewRows::Verdicts(_, _) => verdicts::INSERT_TWO,
        NewRows::Version(_) => versions::INSERT,
        NewRows::Versions(_, _) => versions::INSERT_TWO,
        NewRows::Recording(_) => recordings::INSERT,
        NewRows::Recordings(_, _) => recordings::INSERT_TWO,
        NewRows::Credit(_) => credits::INSERT,
        NewRows::Credits(_, _) => credits::INSERT_TWO,
        NewRows::Balance(_) => balances::INSERT,
        NewRows::SegmentEnd(_) => segment_ends::INSERT,
        NewRows::MechanicalPool(_) => mechanical_pools::INSERT,
    }
}

// Adds rows, whose values these are.
fn add_by<S: Alter>(
    tx: &mut Transaction<'_, S>,
    rows: NewRows<'_>,
    values: &[ValueRef<'_>],
) -> Result<(), RowFault>
    requires { bound values.now ≡ one_after_another (rows_added rows).rows }
    ensures written { Within S.Store tx.old tx.new Writes result
        (Adds (table_called (rows_added rows.entry).table) (rows_added rows.entry).rows) }
    ensures whole { within S.Store tx.old tx.new IsAllOrNothing result }
    ensures err { within S.Store tx.old tx.new OnlyFails result }
    ensures blamed { within S.Store tx.old tx.new BlamesMedium result }
{
    run(tx, insert_of(rows), values)
}

/// Adds rows, whose keys have to be free: all, or none.
#[tactic(auto, using(crate::proofs::lemmas::changes::Columns::bound_pair))]
pub fn add<S: Alter>(tx: &mut Transaction<'_, S>, rows: NewRows<'_>) -> Result<(), RowFault>
    ensures written { Within S.Store tx.old tx.new Writes result
        (Adds (table_called (rows_added rows.entry).table) (rows_added rows.entry).rows) }
    ensures whole { within S.Store tx.old tx.new IsAllOrNothing result }
    ensures err { within S.Store tx.old tx.new OnlyFails result }
    ensures blamed { within S.Store tx.old tx.new BlamesMedium result }
{
    match rows {
        NewRows::Office(row) => add_by(tx, rows, &row.params()),
        NewRows::Transmission(row) => add_by(tx, rows, &row.params()),
        NewRows::Return(row) => add_by(tx, rows, &row.params()),
        NewRows::Pool(row) => add_by(tx, rows, &row.params()),
        NewRows::PoolCut(row) => add_by(tx, rows, &row.params()),
        NewRows::PoolCuts(one, two) => add_by(
            tx,
            rows,
            [one.params(), two.params()].as_flattened(),
        ),
        NewRows::PoolReturn(row) => add_by(tx, rows, &row.params()),
        NewRows::PoolReturns(one, two) => add_by(
            tx,
            rows,
            [one.params(), two.params()].as_flattened(),
        ),
        NewRows::Verdict(row) => add_by(tx, rows, &row.params()),
        NewRows::Verdicts(one, two) => add_by(
            tx,
            rows,
            [one.params(), two.params()].as_flattened(),
        ),
        NewRows::Version(row) => add_by(tx, rows, &row.params()),
        NewRows::Versions(one, two) => add_by(
            tx,
            rows,
            [one.params(), two.params()].as_flattened(),
        ),
        NewRows::Recording(row) => add_by(tx, rows, &row.params()),
        NewRows::Recordings(one, two) => add_by(
            tx,
            rows,
            [one.params(), two.params()].as_flattened(),
        ),
        NewRows::Credit(row) => add_by(tx, rows, &row.params()),
        NewRows::Credits(one, two) => add_by(tx, rows, [one.params(), two.params()].as_flattened()),
        NewRows::Balance(row) => add_by(tx, rows, &row.params()),
        NewRows::SegmentEnd(row) => add_by(tx, rows, &row.params()),
        NewRows::MechanicalPool(row) => add_by(tx, rows, &row.params()),
    }
}
