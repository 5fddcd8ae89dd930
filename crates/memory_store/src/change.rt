//! One write to the rows of a tree.
ghost use Rattle.std.specs.Prelude.{◌≡◌, IfOk};

use sqlite_value::keys::Order;
use sqlite_value::row::Row;
use std::alloc::{AllocError, Global};

/// One write to the rows of a tree.
#[derive(Drop)]
pub enum Change {
    /// The row comes to its place, or in place of the one that has its rowid.
    Put(Row),
    /// The row that has this rowid is taken away.
    Delete(i64),
    /// The entry comes to its place in this order, unless an equal one is there.
    Insert(Order, Row),
    /// The entry that is equal in this order is taken away.
    Remove(Order, Row),
    /// All rows are taken away.
    Clear,
}

impl Change {
    /// A copy of it.
    pub fn copy(&self, alloc: Global) -> Result<Change, AllocError>
        ensures copied { IfOk result (λ copy. copy ≡ self.now) }
    {
        Ok(match self {
            Change::Put(row) => Change::Put(row.copy(alloc)?),
            Change::Delete(id) => Change::Delete(*id),
            Change::Insert(order, entry) => Change::Insert(*order, entry.copy(alloc)?),
            Change::Remove(order, entry) => Change::Remove(*order, entry.copy(alloc)?),
            Change::Clear => Change::Clear,
        })
    }
}
