//! What is asked of the order that closed a pool.
ghost use Rattle.std.specs.Prelude.{◌≡◌, Option, Some, map, option_map, IfOk};
ghost use Rattle.society_core.specs.Answers.{pool_known_as, pool_known_by};
ghost use Rattle.society_core.specs.Keys.{return_key, transmission_key};
ghost use Rattle.society_core.specs.Orders.{Order, order_of};
ghost use Rattle.society_rows.specs.Questions.{Asks};
ghost use Rattle.society_book.specs.BookRows.{cut_key_of, kind_marked, return_key_of};
ghost use Rattle.society_book.specs.Shown.{ByBook, ShowPool};
ghost use Rattle.society_rows.specs.Between.{between};
ghost use Rattle.society_book.specs.Items.{transmission_keys, return_keys};
ghost use Rattle.society_book.specs.OrderShown.{AreReturnsOf, IsAmount, IsCutOf, IsKindOf};

use share_rules::Kind;
use society_core::{Known, OrderError, PoolOrder};
use society_rows::{Idle, PoolCutRow, PoolReturnRow, PoolRow, Question, RowFault, ask};
use sqlite::{Alter, Row};
use std::alloc::Global;
use work_ids::{Reporter, SenderKey};

// The amount that the rows of a pool show, none where it is not closed; `Damaged` where they are more than one, or below 0.
fn shown_amount(rows: &[Row]) -> Result<Option<u64>, RowFault>
    ensures { (kept : Option Order) → ShowPool kept rows.now → IfOk result (λ amount. amount ≡ option_map (λ order. order.amount) kept) }
{
    match rows {
        [] => Ok(None),
        [row] => match u64::try_from(PoolRow::from_row(row)?.amount) {
            Ok(amount) => Ok(Some(amount)),
            Err(_) => Err(RowFault::Damaged),
        },
        _ => Err(RowFault::Damaged),
    }
}

// The amount of a pool, none where it is not closed.
fn amount_of<S: Alter>(conn: &mut Idle<S>, pool: u32) -> Result<Option<u64>, RowFault>
    ensures asked { between S.Store conn.old conn.new Asks result (ByBook (λ _ book amount. IsAmount pool book amount)) }
{
    let rows = ask(conn, Question::Pool(pool))?;
    shown_amount(rows.as_slice())
}

// The right that a pool with these marks pays.
fn marked_kind(marks: &[Row]) -> Kind
    ensures { result ≡ kind_marked marks.now }
{
    match marks {
        [] => Kind::Performing,
        _ => Kind::Mechanical,
    }
}

// The right that a pool pays; of one that is not closed that of performance.
fn kind_of<S: Alter>(conn: &mut Idle<S>, pool: u32) -> Result<Kind, RowFault>
    ensures asked { between S.Store conn.old conn.new Asks result (ByBook (λ _ book kind. IsKindOf pool book kind)) }
{
    let marks = ask(conn, Question::Mechanical(pool))?;
    Ok(marked_kind(marks.as_slice()))
}

// The sender and the number of a row of a cut; `Damaged` where it has no sender.
fn cut_in(row: &Row) -> Result<(SenderKey, u64), RowFault>
    ensures { IfOk result (λ key. transmission_key key.0 key.1 ≡ cut_key_of row.now) }
{
    let row = PoolCutRow::from_row(row)?;
    match SenderKey::from_bytes(row.sender) {
        Ok(sender) => Ok((sender, u64::from(row.number))),
        Err(_) => Err(RowFault::Damaged),
    }
}

// The senders and the numbers of rows of a cut, in their order.
fn cuts_in(alloc: Global, rows: &[Row]) -> Result<Vec<(SenderKey, u64)>, RowFault>
    ensures { IfOk result (λ list. transmission_keys list.items ≡ map cut_key_of rows.now) }
{
    let mut list = Vec::with_capacity(alloc, rows.len())?;
    for row in rows {
        list.push(cut_in(row)?)?;
    }
    Ok(list)
}

// The cut of a pool.
fn cut_of<S: Alter>(conn: &mut Idle<S>, pool: u32) -> Result<Vec<(SenderKey, u64)>, RowFault>
    ensures asked { between S.Store conn.old conn.new Asks result (ByBook (λ _ book list. IsCutOf pool book list.items)) }
{
    let rows = ask(conn, Question::Cuts(pool))?;
    cuts_in(*rows.allocator(), rows.as_slice())
}

// The reporter and the number of a row of a return that is paid; `Damaged` where it has no reporter.
fn return_in(row: &Row) -> Result<(Reporter, u64), RowFault>
    ensures { IfOk result (λ key. return_key key.0 key.1 ≡ return_key_of row.now) }
{
    let row = PoolReturnRow::from_row(row)?;
    match Reporter::from_bytes(row.reporter) {
        Ok(reporter) => Ok((reporter, u64::from(row.number))),
        Err(_) => Err(RowFault::Damaged),
    }
}

// The reporters and the numbers of rows of returns that are paid, in their order.
fn returns_in(alloc: Global, rows: &[Row]) -> Result<Vec<(Reporter, u64)>, RowFault>
    ensures { IfOk result (λ list. return_keys list.items ≡ map return_key_of rows.now) }
{
    let mut list = Vec::with_capacity(alloc, rows.len())?;
    for row in rows {
        list.push(return_in(row)?)?;
    }
    Ok(list)
}

// The returns that a pool pays.
fn returns_of<S: Alter>(conn: &mut Idle<S>, pool: u32) -> Result<Vec<(Reporter, u64)>, RowFault>
    ensures asked { between S.Store conn.old conn.new Asks result (ByBook (λ _ book list. AreReturnsOf pool book list.items)) }
{
    let rows = ask(conn, Question::PaidBy(pool))?;
    returns_in(*rows.allocator(), rows.as_slice())
}

// Whether an amount, a kind, a cut and returns are an order's; `Damaged` where they are no order's at all.
fn known_order(
    alloc: Global,
    amount: u64,
    kind: Kind,
    cut: &[(SenderKey, u64)],
    returns: &[(Reporter, u64)],
    order: &PoolOrder,
) -> Result<Known, RowFault>
    ensures { IfOk result (λ known. known ≡ pool_known_by order.now (Some (order_of kind amount cut.now returns.now))) }
{
    match PoolOrder::new(alloc, kind, amount, cut, returns) {
        Ok(kept) => {
            if kept.is_same(order) {
                Ok(Known::Same)
            } else {
                Ok(Known::Other)
            }
        }
        Err(OrderError::Memory) => Err(RowFault::Memory),
        Err(OrderError::Order(_)) => Err(RowFault::Damaged),
    }
}

// Whether a pool of this amount was closed by an order.
fn known_with_amount<S: Alter>(
    conn: &mut Idle<S>,
    pool: u32,
    amount: u64,
    order: &PoolOrder,
) -> Result<Known, RowFault>
    ensures asked { between S.Store conn.old conn.new Asks result (ByBook (λ _ book known. IsAmount pool book (Some amount) → known ≡ pool_known_as book pool order.now)) }
{
    let kind = kind_of(conn, pool)?;
    let cut = cut_of(conn, pool)?;
    let returns = returns_of(conn, pool)?;
    known_order(
        *returns.allocator(),
        amount,
        kind,
        cut.as_slice(),
        returns.as_slice(),
        order,
    )
}

/// Whether the book has an order, another one under its pool, or none.
pub fn known_pool_of<S: Alter>(
    conn: &mut Idle<S>,
    pool: u32,
    order: &PoolOrder,
) -> Result<Known, RowFault>
    ensures asked { between S.Store conn.old conn.new Asks result (ByBook (λ _ book known. known ≡ pool_known_as book pool order.now)) }
{
    match amount_of(conn, pool)? {
        Some(amount) => known_with_amount(conn, pool, amount, order),
        None => Ok(Known::Absent),
    }
}
