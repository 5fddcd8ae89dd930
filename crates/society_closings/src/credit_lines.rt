//! The lines of a pool's credits.
ghost use Rattle.std.specs.Prelude.{◌≡◌, ◌∷◌, ◌++◌, [], map, unwrap_or, IfOk, OnOk};
ghost use Rattle.society_rows.specs.Rows.{credit_values};
ghost use Rattle.society_rows.specs.Layout.{credits_table};
ghost use Rattle.society_rows.specs.Stored.{Adds};
ghost use Rattle.pool_split.specs.Credits.{credits_together};
ghost use Rattle.society_closings.specs.Closings.{AddsLines, lines_from};
ghost use Rattle.society_book.specs.DerivedRows.{credit_row};
ghost use Rattle.work_ids.specs.Account.{account_text};
ghost use Rattle.society_book.specs.Steps.{Does};
ghost use Rattle.society_rows.specs.Between.{Within};
ghost use Rattle.society_book.specs.Items.{bytes_of_each, account_texts};

use crate::totals::PoolTotals;
use crate::weighing::place_after;
use pool_split::{Credit, Portion};
use society_book::{NO_ISRC, column_of, text_of};
use society_rows::{CreditRow, RowFault, add_all};
use sqlite::{Alter, Transaction};
use std::alloc::Global;
use work_ids::Isrc;

/// The texts of the accounts of some credits, one after another; `Memory` where memory was refused.
pub fn texts_of(alloc: Global, credits: &[Credit]) -> Result<Vec<Vec<u8>>, RowFault>
    ensures { IfOk result (λ texts. bytes_of_each texts.items ≡ account_texts credits.now) }
{
    let mut texts = Vec::with_capacity(alloc, credits.len())?;
    for credit in credits {
        let text = text_of(alloc, &credit.account)?;
        texts.push(text)?;
    }
    Ok(texts)
}

// The ISRC of a credit as text, a dash where it is of no recording.
fn isrc_text(isrc: &Option<Isrc>) -> &[u8]
    ensures { result.now ≡ unwrap_or isrc.now (45 ∷ []) }
{
    match isrc {
        Some(isrc) => isrc.as_bytes(),
        None => NO_ISRC,
    }
}

// Appends the row of a credit at its line, under the text of its account.
fn append_line<'a>(
    pool: u32,
    line: usize,
    credit: &'a Credit,
    account: &'a [u8],
    rows: &mut Vec<CreditRow<'a>>,
) -> Result<(), RowFault>
    ensures { OnOk result (account.now ≡ account_text credit.now.account → map credit_values rows.new.items ≡ map credit_values rows.old.items ++ credit_row pool line credit.now ∷ []) }
{
    let Ok(line) = u32::try_from(line) else {
        return Err(RowFault::Overflow);
    };
    let row = CreditRow {
        pool,
        line,
        isrc: isrc_text(&credit.isrc),
        account,
        units: column_of(credit.units)?,
    };
    Ok(rows.push(row)?)
}

/// The rows of credits of a pool, each at its line from the first on, under the texts of their accounts; `Memory` where memory was refused,
/// `Overflow` where a line or units have no room in a row, and `Damaged` where there are fewer texts than credits.
pub fn line_rows<'a>(
    alloc: Global,
    pool: u32,
    first: usize,
    credits: &'a [Credit],
    texts: &'a [Vec<u8>],
) -> Result<Vec<CreditRow<'a>>, RowFault>
    ensures { IfOk result (λ rows. bytes_of_each texts.now ≡ account_texts credits.now → map credit_values rows.items ≡ lines_from pool first credits.now) }
{
    let mut rows = Vec::with_capacity(alloc, credits.len())?;
    for (index, credit) in credits.iter().enumerate() {
        let Some(text) = texts.get(index) else {
            return Err(RowFault::Damaged);
        };
        let line = place_after(first, index)?;
        append_line(pool, line, credit, text.as_slice(), &mut rows)?;
    }
    Ok(rows)
}

// Adds the lines of credits of a pool, from the first on.
fn add_from<S: Alter>(
    alloc: Global,
    tx: &mut Transaction<'_, S>,
    pool: u32,
    first: usize,
    credits: &[Credit],
) -> Result<(), RowFault>
    ensures does { Within S.Store tx.old tx.new Does result (λ before after _. Adds credits_table (lines_from pool first credits.now) before after) }
{
    let texts = texts_of(alloc, credits)?;
    let rows = line_rows(alloc, pool, first, credits, texts.as_slice())?;
    add_all(tx, rows.as_slice())
}

/// Adds the lines of what a pool pays, from 0 on, a portion at a time, and gives what they come to, one total for each account. Memory is
/// that of the greatest portion and of the accounts. `Memory` where memory was refused, `Overflow` where a line or units have no room.
pub fn add_lines<S: Alter>(
    alloc: Global,
    tx: &mut Transaction<'_, S>,
    pool: u32,
    portions: &[Portion],
) -> Result<Vec<Credit>, RowFault>
    ensures does { Within S.Store tx.old tx.new Does result (λ before after totals. AddsLines pool (credits_together portions.now) totals.items before after) }
{
    let mut totals = PoolTotals::new(alloc);
    let mut line: usize = 0;
    for portion in portions {
        let credits = portion.credits(alloc)?;
        add_from(alloc, tx, pool, line, credits.as_slice())?;
        totals.add(credits.as_slice())?;
        line = place_after(line, credits.len())?;
    }
    totals.into_list()
}
