//! What a pool pays by the tables, worked out anew in a transaction and compared with the lines of its credits.
ghost use Rattle.std.specs.Prelude.{◌≡◌, ◌↔◌, IfErr, IfOk, IsTrue};
ghost use Rattle.book_audit.specs.Examining.{IsNot};
ghost use Rattle.society_book.specs.Errors.{Blames};
ghost use Rattle.society_book.specs.Steps.{Examines};
ghost use Rattle.book_audit.specs.Credits.{FindsCredits, HasCredits, HasNoPool, credit_lines};
ghost use Rattle.book_audit.specs.CreditSteps.{ListsOnly};
ghost use Rattle.pool_split.specs.Credits.{credits_together};
ghost use Rattle.society_closings.specs.Blamed.{CannotPayAmong};
ghost use Rattle.society_closings.specs.Closings.{PaysAmong, lines_from};
ghost use Rattle.society_rows.specs.Between.{Within};

use crate::alike::are_rows;
use crate::reading::{ask, worked_out};
use pool_split::{Credit, Portion};
use share_rules::Office;
use society_closings::{PoolWorks, line_rows, portions_in, texts_of};
use society_core::PoolOrder;
use society_rows::{Question, RowFault};
use sqlite::{Alter, Row, Transaction};
use std::alloc::Global;
use work_ids::PoolNumber;

/// What an order pays by the tables, a portion for each recording, out of works that are listed. Where these are those that the order looks for: `Damaged` where no book
/// whose works the tables have can pay it, and `Memory` or `Refused` where memory or the database failed.
pub fn paid_by<S: Alter>(
    alloc: Global,
    tx: &mut Transaction<'_, S>,
    office: &Office,
    order: &PoolOrder,
    works: &PoolWorks,
) -> Result<Vec<Portion>, RowFault>
    ensures examined { Within S.Store tx.old tx.new (Examines (CannotPayAmong office.now order.now works.now)) result (λ db portions. PaysAmong office.now order.now works.now db (credits_together portions.items)) }
{
    portions_in(alloc, tx, office, order, works)
}

// Whether rows are the lines of these credits of a pool, from the first on.
fn are_from(
    alloc: Global,
    pool: u32,
    first: usize,
    rows: &[Row],
    credits: &[Credit],
) -> Result<bool, RowFault>
    ensures alike { IfOk result (λ alike. IsTrue alike ↔ (rows.now ≡ lines_from pool first credits.now)) }
    ensures judged { IfErr result (Blames ⊥) }
{
    let texts = worked_out(texts_of(alloc, credits))?;
    let wanted = worked_out(line_rows(alloc, pool, first, credits, texts.as_slice()))?;
    Ok(are_rows(rows, wanted.as_slice()))
}

// Whether rows are the lines of what a pool pays; one portion's are worked out at a time.
fn are_lines(alloc: Global, pool: u32, rows: &[Row], portions: &[Portion]) -> Result<bool, RowFault>
    ensures alike { IfOk result (λ alike. IsTrue alike ↔ (rows.now ≡ credit_lines pool (credits_together portions.now))) }
    ensures judged { IfErr result (Blames ⊥) }
{
    let mut line: usize = 0;
    let mut left = rows;
    for portion in portions {
        let credits = portion.credits(alloc)?;
        let Some((here, behind)) = left.split_at_checked(credits.len()) else {
            return Ok(false);
        };
        if !are_from(alloc, pool, line, here, credits.as_slice())? {
            return Ok(false);
        }
        line = rows.len() - behind.len();
        left = behind;
    }
    Ok(left.is_empty())
}

// That the lines of a pool's credits are those of what it pays; else `Damaged`.
fn lines_agree<S: Alter>(
    alloc: Global,
    tx: &mut Transaction<'_, S>,
    pool: u32,
    portions: &[Portion],
) -> Result<(), RowFault>
    ensures examined { Within S.Store tx.old tx.new (Examines (IsNot (ListsOnly pool (credits_together portions.now)))) result (λ db _. HasCredits pool (credits_together portions.now) db) }
{
    let rows = ask(tx, Question::Credits(pool))?;
    if are_lines(alloc, pool, rows.as_slice(), portions)? {
        Ok(())
    } else {
        Err(RowFault::Damaged)
    }
}

/// What a pool pays by the tables, worked out anew out of works that are listed, where the lines of its credits are just these; else
/// `Damaged`, and `Memory` or `Refused` where memory or the database failed.
pub fn credits_agree<S: Alter>(
    alloc: Global,
    tx: &mut Transaction<'_, S>,
    office: &Office,
    pool: PoolNumber,
    order: &PoolOrder,
    works: &PoolWorks,
) -> Result<Vec<Portion>, RowFault>
    ensures examined { Within S.Store tx.old tx.new (Examines (HasNoPool office.now pool order.now works.now)) result (FindsCredits office.now pool order.now works.now) }
{
    let portions = paid_by(alloc, tx, office, order, works)?;
    lines_agree(alloc, tx, pool.value(), portions.as_slice())?;
    Ok(portions)
}
