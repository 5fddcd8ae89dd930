//! What is asked of pools and of accounts.
ghost use Rattle.std.specs.Prelude.{◌≡◌, ◌++◌, ◌∷◌, [], ℕ, None, Option, Some, false, is_some, map, option_map, IfOk, OnOk, if◌then◌else◌};
ghost use Rattle.std.specs.List.{sum_by};
ghost use Rattle.pool_split.specs.Credits.{units_of};
ghost use Rattle.society_core.specs.Book.{order_at};
ghost use Rattle.society_core.specs.Orders.{Order};
ghost use Rattle.society_core.specs.Pools.{balance};
ghost use Rattle.society_rows.specs.Questions.{Asks};
ghost use Rattle.society_book.specs.DerivedRows.{credits_to};
ghost use Rattle.society_book.specs.Shown.{ByBook, IsFilled, ShowPool, ShowUnits, credit_in, credit_isrc};
ghost use Rattle.society_rows.specs.Between.{between};
ghost use Rattle.society_book.specs.AnswersShown.{AreCredits};

use crate::columns::{NO_ISRC, text_of};
use pool_split::Credit;
use society_rows::{BalanceRow, CreditRow, Idle, Question, RowFault, ask};
use sqlite::{Alter, Row};
use std::alloc::Global;
use work_ids::{Account, Isrc};

// The units that the rows of a balance show; `Damaged` where they are more than one, or below 0.
fn shown_units(rows: &[Row]) -> Result<u64, RowFault>
    ensures { (n : ℕ) → ShowUnits n rows.now → IfOk result (λ units. units ≡ n) }
{
    match rows {
        [] => Ok(0),
        [row] => u64::try_from(BalanceRow::from_row(row)?.units).map_err(|_| RowFault::Damaged),
        _ => Err(RowFault::Damaged),
    }
}

// The units under the text of an account.
fn units_under<S: Alter>(conn: &mut Idle<S>, account: &[u8]) -> Result<u64, RowFault>
    ensures asked { between S.Store conn.old conn.new Asks result (ByBook (λ office book units. units ≡ sum_by units_of (credits_to office book account.now))) }
{
    let rows = ask(conn, Question::Balance(account))?;
    shown_units(rows.as_slice())
}

// Does nothing: it tells a proof how long the parts of an account are.
fn see_lengths(account: &Account)
    ensures { IsFilled account.now }
{
    if let Account::Party(sender, number) = account {
        let (_sender, _number) = (sender.as_bytes(), number.as_bytes());
    }
}

/// The balance of an account.
pub(crate) fn balance_of<S: Alter>(
    alloc: Global,
    conn: &mut Idle<S>,
    account: &Account,
) -> Result<u64, RowFault>
    ensures asked { between S.Store conn.old conn.new Asks result (ByBook (λ office book units. units ≡ balance office book account.now)) }
{
    see_lengths(account);
    // Where the text gets no memory nothing is asked.
    conn.see_last_commit();
    let text = text_of(alloc, account)?;
    units_under(conn, text.as_slice())
}

// The ISRC of a credit by its text, none where that is a dash; `Damaged` where it is no ISRC.
fn isrc_of(text: &[u8]) -> Result<Option<Isrc>, RowFault>
    ensures { IfOk result (λ isrc. isrc ≡ credit_isrc text.now) }
{
    if text == NO_ISRC {
        return Ok(None);
    }
    match Isrc::from_field(text) {
        Ok(Some(isrc)) => Ok(Some(isrc)),
        _ => Err(RowFault::Damaged),
    }
}

// The credit that a row is; `Damaged` where it is none.
fn credit_of(row: &Row) -> Result<Credit, RowFault>
    ensures { IfOk result (λ credit. Some credit ≡ credit_in row.now) }
{
    let row = CreditRow::from_row(row)?;
    let isrc = isrc_of(row.isrc)?;
    let (Ok(account), Ok(units)) = (Account::from_bytes(row.account), u64::try_from(row.units))
    else {
        return Err(RowFault::Damaged);
    };
    Ok(Credit {
        isrc,
        account,
        units,
    })
}

// Adds the credit that a row is to a list.
fn push_credit(list: &mut Vec<Credit>, row: &Row) -> Result<(), RowFault>
    ensures { OnOk result (map Some list.new.items ≡ map Some list.old.items ++ credit_in row.now ∷ []) }
{
    // Taken apart and put together, since the check of moves wants the types of the parts named where they are moved.
    let Credit {
        isrc,
        account,
        units,
    } = credit_of(row)?;
    list.push(Credit {
        isrc,
        account,
        units,
    })?;
    Ok(())
}

// The credits that rows are, in their order, where the pool is closed.
fn credits_in(alloc: Global, rows: &[Row], is_closed: bool) -> Result<Option<Vec<Credit>>, RowFault>
    ensures { IfOk result (λ shown. option_map (λ list. map Some list.items) shown ≡ (if is_closed then Some (map credit_in rows.now) else None)) }
{
    if !is_closed {
        return Ok(None);
    }
    let mut list = Vec::with_capacity(alloc, rows.len())?;
    for row in rows {
        push_credit(&mut list, row)?;
    }
    Ok(Some(list))
}

// Whether the rows of a pool show that it is closed; `Damaged` where they are more than one.
fn shown_closed(rows: &[Row]) -> Result<bool, RowFault>
    ensures { (kept : Option Order) → ShowPool kept rows.now → IfOk result (λ closed. closed ≡ is_some kept) }
{
    match rows {
        [] => Ok(false),
        [_] => Ok(true),
        _ => Err(RowFault::Damaged),
    }
}

// Whether a pool is closed.
fn is_closed<S: Alter>(conn: &mut Idle<S>, pool: u32) -> Result<bool, RowFault>
    ensures asked { between S.Store conn.old conn.new Asks result (ByBook (λ _ book closed. closed ≡ is_some (order_at book pool))) }
{
    let rows = ask(conn, Question::Pool(pool))?;
    shown_closed(rows.as_slice())
}

/// The credits of a pool, none where it is not closed.
pub(crate) fn pool_credits<S: Alter>(
    alloc: Global,
    conn: &mut Idle<S>,
    pool: u32,
) -> Result<Option<Vec<Credit>>, RowFault>
    ensures asked { between S.Store conn.old conn.new Asks result (ByBook (λ office book credits. AreCredits office book pool credits)) }
{
    let closed = is_closed(conn, pool)?;
    let rows = ask(conn, Question::Credits(pool))?;
    credits_in(alloc, rows.as_slice(), closed)
}
