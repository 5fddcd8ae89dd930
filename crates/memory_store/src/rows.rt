//! The rows of a tree in order, in pieces.
ghost use Rattle.std.specs.Prelude.{◌≡◌, ◌≢◌, ◌<◌, length, All, [], None, IfOk, IfSome, OnOk, OnErr};
ghost use Rattle.sqlite_trees.specs.Tree.{order_of, sought};
ghost use Rattle.sqlite_trees.specs.View.{IsShaped, Finds};
ghost use Rattle.memory_store.specs.Joined.{joined};

use crate::change::Change;
use crate::pieces;
use crate::search::Probe;
use sqlite_trees::store::{Direction, Shape};
use sqlite_value::keys::Order;
use sqlite_value::row::Row;
use sqlite_value::value::ValueRef;
use std::alloc::{AllocError, Global};

/// A place between rows: so many pieces before it, and so many rows of the next piece.
#[derive(Clone, Copy)]
pub struct RowPlace {
    pub(crate) piece: usize,
    pub(crate) at: usize,
}

impl RowPlace {
    /// Before all rows.
    pub fn start() -> RowPlace
        ensures { result ≡ record { piece = 0; at = 0 } }
    {
        RowPlace { piece: 0, at: 0 }
    }
}

/// The rows of one tree, in the order of a table or of an index, which the first write to no rows settles.
#[derive(Drop)]
pub struct SortedRows {
    shape: Shape,
    pieces: Vec<Vec<Row>>,
    ghost ordered: { ∥ IsShaped shape (joined pieces.items) ∥₁ },
    ghost filled: { All (λ piece. 0 < length piece.items) pieces.items },
}

impl SortedRows {
    ghost use Rattle.sqlite_trees.specs.Tree.{put_row, without_rowid, insert_entry, remove_entry};
    ghost use Rattle.memory_store.specs.Pieces.{tree_rows, left_from, CursorSteps, changed};

    /// No rows.
    pub fn new(alloc: Global) -> SortedRows
        ensures none { tree_rows result ≡ [] }
    {
        SortedRows {
            shape: Shape::Absent,
            pieces: Vec::new(alloc),
        }
    }

    /// The same rows once more.
    pub fn copy(&self, alloc: Global) -> Result<SortedRows, AllocError>
        ensures same { IfOk result (λ copy. tree_rows copy ≡ tree_rows self.now) }
    {
        let mut pieces = Vec::new(alloc);
        for piece in &self.pieces {
            pieces.push(pieces::copy(alloc, piece.as_slice())?)?;
        }
        Ok(SortedRows {
            shape: self.shape,
            pieces,
        })
    }

    /// Writes the row that has the rowid over `row`, or answers false. Rows that are no table's count as out of memory.
    pub fn get(&self, id: i64, row: &mut Row) -> Result<bool, AllocError>
        ensures found { IfOk result (Finds (tree_rows self.now) id row.new) }
    {
        let pieces = self.pieces.as_slice();
        if pieces.is_empty() {
            return Ok(false);
        }
        let Shape::Table = self.shape else {
            return Err(AllocError);
        };
        let place = Probe::BelowRowid(ValueRef::Int(id)).find_near(
            pieces,
            pieces::place_of_rowid(id),
        );
        if pieces::has_rowid(pieces, place, ValueRef::Int(id)) {
            row.copy_from(&pieces[place.piece][place.at])?;
            Ok(true)
        } else {
            Ok(false)
        }
    }

    /// Where a cursor begins: forward at the first entry that is not below the key, backward at the last that is not above it. None where
    /// the rows are in another order. A guess at that place saves the search where it is right.
    pub fn seek(
        &self,
        order: Order,
        key: &Row,
        direction: Direction,
        guess: RowPlace,
    ) -> Option<RowPlace>
        ensures place { IfSome result (λ place. left_from direction place self.now ≡ sought order direction key.now (tree_rows self.now)) }
        ensures other { result ≡ None → order_of self.now.shape ≢ order }
    {
        let pieces = self.pieces.as_slice();
        if pieces.is_empty() {
            return Some(RowPlace { piece: 0, at: 0 });
        }
        if self.shape.order() != order {
            return None;
        }
        match direction {
            Direction::Forward => Some(Probe::BelowKey(order, key).find_near(pieces, guess)),
            Direction::Backward => Some(Probe::UpToKey(order, key).find_near(pieces, guess)),
        }
    }

    /// Writes the row at a place over `row`, and answers the next place; none at the end.
    pub fn step(
        &self,
        place: RowPlace,
        direction: Direction,
        row: &mut Row,
    ) -> Result<Option<RowPlace>, AllocError>
        ensures steps { IfOk result (CursorSteps direction self.now place row.new) }
    {
        let pieces = self.pieces.as_slice();
        let next = match direction {
            Direction::Forward => pieces::after(pieces, place),
            Direction::Backward => pieces::before(pieces, place),
        };
        let Some((moved, found)) = next else {
            return Ok(None);
        };
        row.copy_from(found)?;
        Ok(Some(moved))
    }

    /// Makes the write. A write in another order than that of the rows counts as out of memory. `near` becomes the place of the row that is
    /// written; before, it is a guess at that of an entry of an index, which saves the search where it is right.
    pub fn apply(
        &mut self,
        alloc: Global,
        change: Change,
        near: &mut RowPlace,
    ) -> Result<(), AllocError>
        ensures ok { OnOk result (tree_rows self.new ≡ changed change (tree_rows self.old)) }
        ensures err { OnErr result (tree_rows self.new ≡ tree_rows self.old) }
    {
        match change {
            Change::Put(row) => self.put(alloc, row, near),
            Change::Delete(id) => self.delete(id, near),
            Change::Insert(order, entry) => self.insert(alloc, order, entry, near),
            Change::Remove(order, entry) => self.remove(order, &entry, near),
            Change::Clear => {
                self.clear();
                Ok(())
            }
        }
    }

    /// Where there are no rows they are of this shape from now on, and else they must be.
    fn settle(&mut self, shape: Shape) -> Result<(), AllocError>
        ensures ok { OnOk result (self.new.shape ≡ shape) }
        ensures rows { self.new.pieces.items ≡ self.old.pieces.items }
    {
        if self.pieces.is_empty() {
            self.shape = shape;
            return Ok(());
        }
        if self.shape == shape {
            Ok(())
        } else {
            Err(AllocError)
        }
    }

    fn put(&mut self, alloc: Global, row: Row, found: &mut RowPlace) -> Result<(), AllocError>
        ensures ok { OnOk result (tree_rows self.new ≡ put_row row (tree_rows self.old)) }
        ensures err { OnErr result (tree_rows self.new ≡ tree_rows self.old) }
    {
        let ValueRef::Int(id) = row.get(0) else {
            return Err(AllocError);
        };
        self.settle(Shape::Table)?;
        let guess = pieces::place_of_rowid(id);
        let place = Probe::BelowRowid(row.get(0)).find_near(self.pieces.as_slice(), guess);
        *found = pieces::landing(self.pieces.as_slice(), place);
        if pieces::has_rowid(self.pieces.as_slice(), place, row.get(0)) {
            pieces::replace(&mut self.pieces, place, row);
            Ok(())
        } else {
            pieces::insert(alloc, &mut self.pieces, place, row)
        }
    }

    fn delete(&mut self, id: i64, found: &mut RowPlace) -> Result<(), AllocError>
        ensures ok { OnOk result (tree_rows self.new ≡ without_rowid id (tree_rows self.old)) }
        ensures err { OnErr result (tree_rows self.new ≡ tree_rows self.old) }
    {
        self.settle(Shape::Table)?;
        let guess = pieces::place_of_rowid(id);
        let place = Probe::BelowRowid(ValueRef::Int(id)).find_near(self.pieces.as_slice(), guess);
        *found = place;
        if pieces::has_rowid(self.pieces.as_slice(), place, ValueRef::Int(id)) {
            pieces::remove(&mut self.pieces, place);
        }
        Ok(())
    }

    fn insert(
        &mut self,
        alloc: Global,
        order: Order,
        entry: Row,
        near: &mut RowPlace,
    ) -> Result<(), AllocError>
        ensures ok { OnOk result (tree_rows self.new ≡ insert_entry order entry (tree_rows self.old)) }
        ensures err { OnErr result (tree_rows self.new ≡ tree_rows self.old) }
    {
        self.settle(Shape::Index(order))?;
        let place = Probe::BelowEntry(order, &entry).find_near(self.pieces.as_slice(), *near);
        *near = pieces::landing(self.pieces.as_slice(), place);
        if pieces::has_entry(self.pieces.as_slice(), place, order, &entry) {
            return Ok(());
        }
        pieces::insert(alloc, &mut self.pieces, place, entry)
    }

    fn remove(&mut self, order: Order, entry: &Row, near: &mut RowPlace) -> Result<(), AllocError>
        ensures ok { OnOk result (tree_rows self.new ≡ remove_entry order entry.now (tree_rows self.old)) }
        ensures err { OnErr result (tree_rows self.new ≡ tree_rows self.old) }
    {
        self.settle(Shape::Index(order))?;
        let place = Probe::BelowEntry(order, entry).find_near(self.pieces.as_slice(), *near);
        *near = place;
        if pieces::has_entry(self.pieces.as_slice(), place, order, entry) {
            pieces::remove(&mut self.pieces, place);
        }
        Ok(())
    }

    fn clear(&mut self)
        ensures { tree_rows self.new ≡ [] }
    {
        self.pieces.clear();
        self.shape = Shape::Absent;
    }
}
