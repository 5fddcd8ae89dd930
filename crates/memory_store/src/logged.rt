//! Writes that a transaction has made, and what they make of trees.
ghost use Rattle.std.specs.Prelude.{◌≡◌, ◌<◌, [], length, IfOk, IfSome, OnOk, OnErr};
ghost use Rattle.std.specs.Option.{ForSome};
ghost use Rattle.sqlite_trees.specs.Tree.{with_tree};
ghost use Rattle.memory_store.specs.Pieces.{changed};
ghost use Rattle.memory_store.specs.Log.{rows_at, replayed, changed_or};

use crate::change::Change;
use crate::rows::{RowPlace, SortedRows};
use std::alloc::{AllocError, Global};
use std::mem;

/// A write to the tree with this number, with its place.
#[derive(Drop)]
pub(crate) struct Logged {
    pub tree: usize,
    pub change: Change,
    pub place: RowPlace,
}

/// The trees once more.
pub(crate) fn copy_trees(alloc: Global, trees: &[SortedRows]) -> Result<Vec<SortedRows>, AllocError>
    ensures same { IfOk result (λ copy. rows_at copy.items ≡ rows_at trees.now) }
{
    let mut copy = Vec::new(alloc);
    for tree in trees {
        copy.push(tree.copy(alloc)?)?;
    }
    Ok(copy)
}

/// Trees with the rows of these: the spare ones, or copies.
pub(crate) fn once_more(
    alloc: Global,
    trees: &[SortedRows],
    spare: Option<Vec<SortedRows>>,
) -> Result<Vec<SortedRows>, AllocError>
    requires mirrors { ∥ ForSome spare (λ spare. rows_at spare.items ≡ rows_at trees.now) ∥₁ }
    ensures same { IfOk result (λ more. rows_at more.items ≡ rows_at trees.now) }
{
    match spare {
        Some(spare) => Ok(spare),
        None => copy_trees(alloc, trees),
    }
}

/// Makes trees without rows up to this number.
fn make_room(alloc: Global, trees: &mut Vec<SortedRows>, tree: usize) -> Result<(), AllocError>
    ensures same { rows_at trees.new.items ≡ rows_at trees.old.items }
    ensures room { OnOk result (tree < length trees.new.items) }
{
    while trees.len() <= tree {
        trees.push(SortedRows::new(alloc))?;
    }
    Ok(())
}

/// Makes a write. `near` is a guess at its place, and becomes it.
pub(crate) fn write(
    alloc: Global,
    trees: &mut Vec<SortedRows>,
    tree: usize,
    change: Change,
    near: &mut RowPlace,
) -> Result<(), AllocError>
    ensures ok { OnOk result (rows_at trees.new.items ≡ with_tree (rows_at trees.old.items) tree (changed change (rows_at trees.old.items tree))) }
    ensures err { OnErr result (rows_at trees.new.items ≡ rows_at trees.old.items) }
{
    make_room(alloc, trees, tree)?;
    trees[tree].apply(alloc, change, near)
}

/// Takes all rows of a tree away.
pub(crate) fn clear(alloc: Global, trees: &mut Vec<SortedRows>, tree: usize)
    ensures none { rows_at trees.new.items ≡ with_tree (rows_at trees.old.items) tree [] }
{
    if tree < trees.len() {
        trees[tree] = SortedRows::new(alloc);
    }
}

/// Makes the writes of a log, in their order.
pub(crate) fn replay(
    alloc: Global,
    mut trees: Vec<SortedRows>,
    log: Vec<Logged>,
) -> Option<Vec<SortedRows>>
    ensures led { IfSome result (λ led. rows_at led.items ≡ replayed log.items (rows_at trees.items)) }
{
    for logged in log {
        let mut place = logged.place;
        write(alloc, &mut trees, logged.tree, logged.change, &mut place).ok()?;
    }
    Some(trees)
}

/// The trees after these writes.
pub(crate) fn led_by(
    alloc: Global,
    trees: &[SortedRows],
    log: &[Logged],
) -> Result<Vec<SortedRows>, AllocError>
    ensures led { IfOk result (λ led. rows_at led.items ≡ replayed log.now (rows_at trees.now)) }
{
    let mut led = copy_trees(alloc, trees)?;
    for logged in log {
        let mut place = logged.place;
        let change = logged.change.copy(alloc)?;
        write(alloc, &mut led, logged.tree, change, &mut place)?;
    }
    Ok(led)
}

/// Keeps the changed trees, and answers the same rows once more where there is memory: those that were kept, after the log.
pub(crate) fn catch_up(
    alloc: Global,
    kept: &mut Vec<SortedRows>,
    changed: Option<Vec<SortedRows>>,
    spare: Option<Vec<SortedRows>>,
    log: Vec<Logged>,
) -> Option<Vec<SortedRows>>
    requires leads { rows_at (changed_or changed kept.old.items) ≡ replayed log.items (rows_at kept.old.items) }
    requires mirrors { ∥ ForSome spare (λ spare. rows_at spare.items ≡ rows_at kept.old.items) ∥₁ }
    ensures kept { rows_at kept.new.items ≡ rows_at (changed_or changed kept.old.items) }
    ensures mirrors { ∥ ForSome result (λ spare. rows_at spare.items ≡ rows_at kept.new.items) ∥₁ }
{
    let Some(trees) = changed else {
        return spare;
    };
    let old = mem::replace(kept, trees);
    replay(alloc, old, log)
}
