//! What the orders of pools say, by the pools' numbers, out of the rows of all of them: each row is read once, however many pools there are.
ghost use Rattle.std.specs.Prelude.{◌≡◌, ◌++◌, ℕ, IfErr, IfOk, OnOk};
ghost use Rattle.std.specs.List.{AllByRecursion};
ghost use Rattle.society_book.specs.Errors.{Blames};
ghost use Rattle.book_audit.specs.OrderParts.{AreCutsOf, AreMarksOf, StandOnce, ArePaidOf, ArePartsOf, IsKnownCut, IsKnownMark, IsKnownPaid, Numbers, cut_kept, item_at, items_kept, kind_kept, returns_kept};
ghost use Rattle.book_audit.specs.Pools.{ArePools};
ghost use Rattle.society_core.specs.Book.{Book, IsSound};
ghost use Rattle.society_rows.specs.Forms.{IsOfForms, pool_forms};

use crate::pool_tables::PoolRows;
use share_rules::Kind;
use society_rows::{MechanicalPoolRow, PoolCutRow, PoolReturnRow, PoolRow, RowFault};
use sqlite::Row;
use std::alloc::{AllocError, Global};
use std::collections::{BTreeMap, BTreeSet};
use work_ids::{Reporter, SenderKey};

/// What the orders of pools say, by the pools' numbers.
#[derive(Drop)]
pub(crate) struct OrderParts {
    cuts: BTreeMap<u32, Vec<(SenderKey, u64)>>,
    returns: BTreeMap<u32, Vec<(Reporter, u64)>>,
    mechanical: BTreeSet<u32>,
}

// Appends an item to those of a pool.
fn append<T: Drop>(
    alloc: Global,
    lists: &mut BTreeMap<u32, Vec<T>>,
    pool: u32,
    item: T,
) -> Result<(), AllocError>
    ensures { OnOk result ((q : ℕ) → items_kept lists.new q ≡ items_kept lists.old q ++ item_at q pool item) }
{
    if let Some(list) = lists.get_mut(&pool) {
        list.push(item)?;
        return Ok(());
    }
    let mut list = Vec::new(alloc);
    list.push(item)?;
    lists.insert(pool, list)?;
    Ok(())
}

// The items of a pool, none where it has none.
fn items_of<T>(lists: &BTreeMap<u32, Vec<T>>, pool: u32) -> &[T]
    ensures { result.now ≡ items_kept lists.now pool }
{
    match lists.get(&pool) {
        Some(list) => list.as_slice(),
        None => &[],
    }
}

// The numbers of pools; `Damaged` where a row cannot be read, or a number stands twice.
fn numbers_of(alloc: Global, rows: &[Row]) -> Result<BTreeSet<u32>, RowFault>
    ensures numbers { IfOk result (Numbers rows.now) }
    ensures judged { IfErr result (Blames (AllByRecursion (IsOfForms pool_forms) rows.now → StandOnce rows.now → ⊥)) }
{
    let mut numbers = BTreeSet::new(alloc);
    for row in rows {
        let Ok(row) = PoolRow::from_row(row) else {
            return Err(RowFault::Damaged);
        };
        if !numbers.insert(row.pool)? {
            return Err(RowFault::Damaged);
        }
    }
    Ok(numbers)
}

// The senders and the numbers of the cuts of pools; `Damaged` where a row cannot be read, or is of another pool.
fn cuts_of(
    alloc: Global,
    pools: &BTreeSet<u32>,
    rows: &[Row],
) -> Result<BTreeMap<u32, Vec<(SenderKey, u64)>>, RowFault>
    ensures cuts { IfOk result (AreCutsOf pools.now rows.now) }
    ensures judged { IfErr result (Blames (AllByRecursion (IsKnownCut pools.now) rows.now → ⊥)) }
{
    let mut cuts = BTreeMap::new(alloc);
    for row in rows {
        let Ok(row) = PoolCutRow::from_row(row) else {
            return Err(RowFault::Damaged);
        };
        let Ok(sender) = SenderKey::from_bytes(row.sender) else {
            return Err(RowFault::Damaged);
        };
        if !pools.contains(&row.pool) {
            return Err(RowFault::Damaged);
        }
        append(alloc, &mut cuts, row.pool, (sender, u64::from(row.number)))?;
    }
    Ok(cuts)
}

// The reporters and the numbers of the returns that pools pay; `Damaged` where a row cannot be read, or is of another pool.
fn returns_of(
    alloc: Global,
    pools: &BTreeSet<u32>,
    rows: &[Row],
) -> Result<BTreeMap<u32, Vec<(Reporter, u64)>>, RowFault>
    ensures returns { IfOk result (ArePaidOf pools.now rows.now) }
    ensures judged { IfErr result (Blames (AllByRecursion (IsKnownPaid pools.now) rows.now → ⊥)) }
{
    let mut returns = BTreeMap::new(alloc);
    for row in rows {
        let Ok(row) = PoolReturnRow::from_row(row) else {
            return Err(RowFault::Damaged);
        };
        let Ok(reporter) = Reporter::from_bytes(row.reporter) else {
            return Err(RowFault::Damaged);
        };
        if reporter.as_bytes() != row.reporter {
            return Err(RowFault::Damaged);
        }
        if !pools.contains(&row.pool) {
            return Err(RowFault::Damaged);
        }
        append(
            alloc,
            &mut returns,
            row.pool,
            (reporter, u64::from(row.number)),
        )?;
    }
    Ok(returns)
}

// The pools that are marked; `Damaged` where a row cannot be read, is of another pool, or stands twice.
fn marked_in(alloc: Global, pools: &BTreeSet<u32>, rows: &[Row]) -> Result<BTreeSet<u32>, RowFault>
    ensures marks { IfOk result (AreMarksOf pools.now rows.now) }
    ensures judged { IfErr result (Blames (AllByRecursion (IsKnownMark pools.now) rows.now → StandOnce rows.now → ⊥)) }
{
    let mut marked = BTreeSet::new(alloc);
    for row in rows {
        let Ok(mark) = MechanicalPoolRow::from_row(row) else {
            return Err(RowFault::Damaged);
        };
        if !pools.contains(&mark.pool) {
            return Err(RowFault::Damaged);
        }
        if !marked.insert(mark.pool)? {
            return Err(RowFault::Damaged);
        }
    }
    Ok(marked)
}

impl OrderParts {
    /// What these rows say; `Damaged` where one cannot be read, a pool or a mark stands twice, or a cut, a return or a mark is of no pool.
    pub(crate) fn of_rows(alloc: Global, rows: &PoolRows) -> Result<OrderParts, RowFault>
        ensures parts { IfOk result (ArePartsOf rows.now) }
        ensures judged { IfErr result (Blames ((b : Book) → IsSound b → ArePools b rows.now → ⊥)) }
    {
        let pools = numbers_of(alloc, rows.pools.as_slice())?;
        let cuts = cuts_of(alloc, &pools, rows.cuts.as_slice())?;
        let returns = returns_of(alloc, &pools, rows.paid.as_slice())?;
        let mechanical = marked_in(alloc, &pools, rows.marks.as_slice())?;
        Ok(OrderParts {
            cuts,
            returns,
            mechanical,
        })
    }

    /// The senders and the numbers of a pool's cut, in the order of the rows.
    pub(crate) fn cut_of(&self, pool: u32) -> &[(SenderKey, u64)]
        ensures { result.now ≡ cut_kept self.now pool }
    {
        items_of(&self.cuts, pool)
    }

    /// The reporters and the numbers of the returns that a pool pays, in the order of the rows.
    pub(crate) fn returns_of(&self, pool: u32) -> &[(Reporter, u64)]
        ensures { result.now ≡ returns_kept self.now pool }
    {
        items_of(&self.returns, pool)
    }

    /// The right that a pool pays.
    pub(crate) fn kind_of(&self, pool: u32) -> Kind
        ensures { result ≡ kind_kept self.now pool }
    {
        if self.mechanical.contains(&pool) {
            Kind::Mechanical
        } else {
            Kind::Performing
        }
    }
}
