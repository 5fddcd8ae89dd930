//! Returns and pools as the book in memory has them: points, claims and credits computed anew.
ghost use Rattle.std.specs.Prelude.{◌≡◌, ◌≤◌, IfOk, List, OnOk, is_some, length, map, option_map, sum, true};
ghost use Rattle.perf_returns.specs.declared.performance.Performance.{Performance as Row};
ghost use Rattle.pool_split.specs.Credits.{units_of};
ghost use Rattle.society_core.specs.Accounts.{same_account};
ghost use Rattle.society_core.specs.Answers.{payment_in, pool_known_as, return_known_as};
ghost use Rattle.society_core.specs.Book.{IsSound, order_at, return_at};
ghost use Rattle.society_core.specs.Candidates.{HasReturns, ReachesCut, rows_of_return};
ghost use Rattle.society_core.specs.Points.{Tallies, TalliesOn, rows_named};
ghost use Rattle.society_core.specs.Pools.{balance, credits_of, units_to};

use crate::candidates::candidates_of;
use crate::claim_list::claims;
use crate::order::PoolOrder;
use crate::plain_book::PlainBook;
use crate::points::Tally;
use crate::return_key::ReturnKey;
use crate::store::{Known, Payment};
use perf_returns::{ReturnError, read_return};
use pool_split::{Credit, credits};
use share_rules::Office;
use std::alloc::{AllocError, Global};
use work_ids::{Account, PoolNumber};

/// Whether the book has a return, another one under its key, or none.
pub(crate) fn known_return_in(book: &PlainBook, key: &ReturnKey, body: &[u8]) -> Known
    ensures { result ≡ return_known_as book.now key.now body.now }
{
    match book.performances(key) {
        None => Known::Absent,
        Some(kept) => {
            if kept.as_slice() == body {
                Known::Same
            } else {
                Known::Other
            }
        }
    }
}

/// Whether the book has an order, another one under its pool, or none.
pub(crate) fn known_pool_in(book: &PlainBook, pool: PoolNumber, order: &PoolOrder) -> Known
    ensures { result ≡ pool_known_as book.now pool order.now }
{
    match book.order(pool) {
        None => Known::Absent,
        Some(kept) => {
            if kept.is_same(order) {
                Known::Same
            } else {
                Known::Other
            }
        }
    }
}

/// Whether a return is there, and which pool has paid it.
pub(crate) fn payment_of(book: &PlainBook, key: &ReturnKey) -> Payment
    ensures { result ≡ payment_in book.now key.now }
{
    if book.performances(key).is_none() {
        return Payment::Unknown;
    }
    match book.payer(key) {
        Some(pool) => Payment::Paid(pool),
        None => Payment::Unpaid,
    }
}

// Adds the performances of a return that is there to a tally of at most 9,990,000 performances.
fn add_return(
    alloc: Global,
    book: &PlainBook,
    key: &ReturnKey,
    tally: &mut Tally,
) -> Result<(), AllocError>
    requires sound { IsSound book.now }
    requires there { is_some (return_at book.now key.now) ≡ true }
    ensures tally { (rows : List Row) → length rows ≤ 9990000 → TalliesOn tally.old rows (rows_of_return book.now key.now) result tally.new }
    ensures limit { OnOk result (length (rows_of_return book.now key.now) ≤ 10000) }
{
    let Some(body) = book.performances(key) else {
        unreachable!();
    };
    match read_return(alloc, body) {
        Ok(performances) => tally.add_all(performances.rows.as_slice()),
        Err(ReturnError::Memory) => Err(AllocError),
        Err(ReturnError::Csv(_)) => unreachable!(),
    }
}

// The tally of all performances of the returns that an order names, at most 10,000,000.
fn tally_of(alloc: Global, book: &PlainBook, order: &PoolOrder) -> Result<Tally, AllocError>
    requires sound { IsSound book.now }
    requires there { HasReturns book.now order.now }
    ensures tally { IfOk result (λ tally. Tallies tally (rows_named book.now order.now)) }
    ensures limit { OnOk result (length (rows_named book.now order.now) ≤ 10000000) }
{
    let mut tally = Tally::new(alloc);
    for key in order.returns() {
        add_return(alloc, book, key, &mut tally)?;
    }
    Ok(tally)
}

// The credits of a pool with this order.
fn credits_by(
    alloc: Global,
    office: &Office,
    book: &PlainBook,
    order: &PoolOrder,
) -> Result<Vec<Credit>, AllocError>
    requires sound { IsSound book.now }
    requires there { HasReturns book.now order.now }
    requires reached { ReachesCut book.now order.now }
    ensures credits { IfOk result (λ credits. credits.items ≡ credits_of office.now book.now order.now) }
    ensures whole { IfOk result (λ credits. sum (map units_of credits.items) ≡ order.now.amount) }
{
    let tally = tally_of(alloc, book, order)?;
    let points = tally.points_by_recording(alloc)?;
    let candidates = candidates_of(alloc, order.kind(), office, &tally, book, order)?;
    let claims = claims(alloc, &points, &candidates)?;
    credits(alloc, order.amount(), &claims)
}

/// The credits of a pool, none where it is not closed.
pub(crate) fn credits_of_pool(
    alloc: Global,
    office: &Office,
    book: &PlainBook,
    pool: PoolNumber,
) -> Result<Option<Vec<Credit>>, AllocError>
    requires sound { IsSound book.now }
    ensures { IfOk result (λ credits. option_map (λ list. list.items) credits ≡ option_map (credits_of office.now book.now) (order_at book.now pool)) }
{
    match book.order(pool) {
        None => Ok(None),
        Some(order) => Ok(Some(credits_by(alloc, office, book, order)?)),
    }
}

// Whether two accounts are one.
fn is_same(a: &Account, b: &Account) -> bool
    ensures { result ≡ same_account a.now b.now }
{
    match (a, b) {
        (Account::Ipi(a), Account::Ipi(b)) => a == b,
        (Account::Party(sender, a), Account::Party(other, b)) => sender == other && a == b,
        (Account::Unclaimed, Account::Unclaimed) => true,
        _ => false,
    }
}

// The units of an account among the credits of a pool.
fn units_in(credits: &[Credit], account: &Account) -> u64
    requires within { sum (map units_of credits.now) ≤ 1000000000000 }
    ensures { result ≡ units_to account.now credits.now }
{
    let mut units = 0;
    for credit in credits {
        if is_same(&credit.account, account) {
            units += credit.units;
        }
    }
    units
}

/// The balance of an account, in units of money.
pub(crate) fn balance_of(
    alloc: Global,
    office: &Office,
    book: &PlainBook,
    account: &Account,
) -> Result<u64, AllocError>
    requires sound { IsSound book.now }
    ensures { IfOk result (λ units. units ≡ balance office.now book.now account.now) }
{
    let orders = book.orders(alloc)?;
    let mut units = 0;
    for order in &orders {
        let credits = credits_by(alloc, office, book, order)?;
        units += units_in(&credits, account);
    }
    Ok(units)
}
