//! The store. A transaction writes to a second set of rows, and a commit brings the first up to date by the log of its writes, so that the
//! next one copies nothing. A savepoint is a place in that log.
ghost use Rattle.std.specs.Prelude.{◌≡◌, ◌≢◌, ℕ, ◌<◌, ◌≤◌, false, slice_index, [], length, map, refl, All, IfOk, IfErr, OnOk};
ghost use Rattle.std.proofs.Common.{true≢false};
ghost use Rattle.std.specs.Option.{ForSome};
ghost use Rattle.sqlite_trees.specs.Memory.{memory_view};
ghost use Rattle.memory_store.specs.Log.{rows_at, rows_after, replayed, changed_or};
ghost use Rattle.memory_store.specs.Shown.{AreAllShaped};

use crate::change::Change;
use crate::cursor::Cursor;
use crate::logged::{self, Logged};
use crate::rows::{RowPlace, SortedRows};
use sqlite_trees::error::StoreError;
use sqlite_trees::memory::MemStore;
use sqlite_trees::schema::Object;
use sqlite_trees::store::{Alter, Direction, Shape, Store};
use sqlite_trees::typed::is_typed;
use sqlite_value::row::Row;
use std::alloc::{AllocError, Global};
use std::mem;

/// Of so many trees the last place is remembered; an office has fewer.
const REMEMBERED: usize = 64;

/// Numbered trees of rows in memory, with one transaction that is always open.
#[derive(Drop)]
pub struct MemoryStore {
    alloc: Global,
    /// The list of the trees, with their shapes and the version. It has none of their rows.
    catalog: MemStore,
    /// The rows of each tree as of the last commit.
    kept: Vec<SortedRows>,
    /// The rows as the transaction sees them; none where it wrote nothing.
    changed: Option<Vec<SortedRows>>,
    /// The rows of the last commit once more, for the next transaction to write to.
    spare: Option<Vec<SortedRows>>,
    log: Vec<Logged>,
    /// The length of the log at each savepoint.
    marks: Vec<usize>,
    cursors: Vec<Option<Cursor>>,
    /// Where a row of each tree was sought or put last: the next one is often there or right behind it.
    near: [RowPlace; REMEMBERED],
    ghost within: { All (λ n. n ≤ length log.items) marks.items },
    ghost rising: { (i j : ℕ) → i ≤ j → j < length marks.items → slice_index marks.items i ≤ slice_index marks.items j },
    ghost leads: { ∥ rows_at (changed_or changed kept.items) ≡ replayed log.items (rows_at kept.items) ∥₁ },
    ghost mirrors: { ∥ ForSome spare (λ trees. rows_at trees.items ≡ rows_at kept.items) ∥₁ },
    ghost shaped: { ∥ AreAllShaped (memory_view catalog) (rows_at (changed_or changed kept.items)) (rows_at kept.items) (map (rows_after kept.items log.items) marks.items) ∥₁ },
}

impl MemoryStore {
    ghost use Rattle.sqlite_trees.specs.Tree.{order_of, sought};
    ghost use Rattle.sqlite_trees.specs.Objects.{version_tree};
    ghost use Rattle.sqlite_trees.specs.View.{SetsTree, IsFailure, HasCause};
    ghost use Rattle.memory_store.specs.Pieces.{changed};
    ghost use Rattle.memory_store.specs.Log.{left_of};
    ghost use Rattle.memory_store.specs.Memory.{current, store_view, SetsCursor, StepsOn, KeepsRows, Fits};

    /// A store without trees.
    pub fn new(alloc: Global) -> Result<MemoryStore, AllocError>
        ensures empty { IfOk result (λ s. (t : ℕ) → t ≢ version_tree → (store_view s).trees t ≡ []) }
        ensures clean { IfOk result (λ s. (store_view s).trees ≡ (store_view s).committed) }
        ensures sound { IfOk result (λ s. (store_view s).is_broken ≡ false) }
        ensures unmarked { IfOk result (λ s. (store_view s).marks ≡ []) }
    {
        Ok(MemoryStore {
            alloc,
            catalog: MemStore::new(alloc, &[])?,
            kept: Vec::new(alloc),
            changed: None,
            spare: None,
            log: Vec::new(alloc),
            marks: Vec::new(alloc),
            cursors: Vec::new(alloc),
            near: [RowPlace::start(); REMEMBERED],
        })
    }

    // Whether the transaction is broken, which only the list of trees can be.
    fn has_failed(&self) -> bool
        ensures { result ≡ (store_view self.now).is_broken }
    {
        self.catalog.is_broken()
    }

    // The trees that the transaction sees.
    fn current(&self) -> &[SortedRows]
        ensures { result.now ≡ current self.now }
    {
        match &self.changed {
            Some(trees) => trees.as_slice(),
            None => self.kept.as_slice(),
        }
    }

    // A cursor at a key.
    fn cursor_at(&self, tree: u32, key: &Row, direction: Direction) -> Result<Cursor, AllocError>
        ensures { IfOk result (λ c. left_of (current self.now) c ≡ sought (order_of ((memory_view self.now.catalog).shape tree)) direction key.now (rows_at (current self.now) tree)) }
    {
        let order = self.catalog.shape(tree).order();
        let Some(rows) = self.current().get(tree as usize) else {
            return Ok(Cursor {
                tree: tree as usize,
                place: None,
                direction,
            });
        };
        let guess = self.near[tree as usize % REMEMBERED];
        let Some(place) = rows.seek(order, key, direction, guess) else {
            return Err(AllocError);
        };
        Ok(Cursor {
            tree: tree as usize,
            place: Some(place),
            direction,
        })
    }

    fn set_cursor(
        cursors: &mut Vec<Option<Cursor>>,
        at: usize,
        cursor: Cursor,
    ) -> Result<(), AllocError>
        ensures ok { OnOk result (SetsCursor cursors.old.items cursors.new.items at cursor) }
    {
        while cursors.len() <= at {
            cursors.push(None)?;
        }
        cursors[at] = Some(cursor);
        Ok(())
    }

    // The cursor after it has given a row, or none at its end.
    fn step(&self, cursor: Cursor, row: &mut Row) -> Result<Option<Cursor>, AllocError>
        ensures { IfOk result (StepsOn (current self.now) cursor row.new) }
    {
        let Some(rows) = self.current().get(cursor.tree) else {
            return Ok(None);
        };
        let Some(place) = cursor.place else {
            return Ok(None);
        };
        let moved = rows.step(place, cursor.direction, row)?;
        Ok(moved.map(|place| Cursor {
            place: Some(place),
            ..cursor
        }))
    }

    // Has rows to write to, which are those that the transaction sees.
    fn begin(&mut self) -> Result<(), AllocError>
        ensures same { KeepsRows self.old self.new }
    {
        if self.changed.is_some() {
            return Ok(());
        }
        let trees = logged::once_more(self.alloc, self.kept.as_slice(), self.spare.take())?;
        self.changed = Some(trees);
        self.cursors.clear();
        Ok(())
    }

    // Writes to the rows of a tree, and to the log.
    fn write(&mut self, tree: u32, change: Change) -> Result<(), StoreError>
        requires { Fits change ((memory_view self.old.catalog).shape tree) }
        ensures ok { OnOk result (SetsTree (store_view self.old) (store_view self.new) tree (changed change)) }
        ensures err { IfErr result (IsFailure (store_view self.old) (store_view self.new)) }
        ensures cause { IfErr result (HasCause (store_view self.old) ⊥ ⊥) }
        ensures kept { (self.new.kept ≡ self.old.kept) × (self.new.catalog ≡ self.old.catalog) }
    {
        if self.has_failed() {
            return Err(StoreError::Broken);
        }
        let copy = change.copy(self.alloc)?;
        self.begin()?;
        self.log.reserve(1)?;
        let Some(trees) = &mut self.changed else {
            return Err(StoreError::OutOfMemory);
        };
        let mut place = self.near[tree as usize % REMEMBERED];
        logged::write(self.alloc, trees, tree as usize, copy, &mut place)?;
        self.near[tree as usize % REMEMBERED] = place;
        self.log
            .push(Logged {
                tree: tree as usize,
                change,
                place,
            })
            .unwrap();
        self.cursors.clear();
        Ok(())
    }
}

impl Store for MemoryStore {
    ghost use Rattle.memory_store.specs.Memory.{store_view};
    ghost use Rattle.memory_store.specs.Laws.{store_is_ordered, store_is_unaltered};

    ghost view = { store_view };

    ghost faults = { λ _. 0 };

    ghost recovers = { λ s db. db ≡ (store_view s).committed };

    ghost is_shielded = { λ _. Unit {0} };

    ghost is_step = { λ _ _ _. Unit {0} };

    ghost ordered = { store_is_ordered };

    ghost shut_if_dirty = { λ s dirty. absurd (true≢false dirty) };

    ghost empty_if_dirty = { λ s dirty. absurd (true≢false dirty) };

    ghost broken_if_shut = { λ s shut. absurd (true≢false shut) };

    ghost settled = { λ s db _ same. same };

    ghost stays = { λ s _. refl };

    ghost survives = { λ s _. ∣ (_, refl) ∣₁ };

    ghost unaltered = { λ s _. store_is_unaltered s };

    fn is_broken(&self) -> bool {
        self.has_failed()
    }

    fn tree_count(&self) -> u64 {
        self.catalog.tree_count()
    }

    fn reals(&self, tree: u32) -> u64 {
        self.catalog.reals(tree)
    }

    fn shape(&self, tree: u32) -> Shape {
        self.catalog.shape(tree)
    }

    fn seek(
        &mut self,
        cursor: u16,
        tree: u32,
        key: &Row,
        direction: Direction,
    ) -> Result<(), StoreError> {
        if self.has_failed() {
            return Err(StoreError::Broken);
        }
        let placed = self.cursor_at(tree, key, direction)?;
        if let Some(place) = placed.place {
            self.near[tree as usize % REMEMBERED] = place;
        }
        Ok(Self::set_cursor(&mut self.cursors, usize::from(cursor), placed)?)
    }

    fn next(&mut self, cursor: u16, row: &mut Row) -> Result<bool, StoreError> {
        if self.has_failed() {
            return Err(StoreError::Broken);
        }
        let at = usize::from(cursor);
        match self.step(self.cursors[at].unwrap(), row)? {
            Some(moved) => {
                self.cursors[at] = Some(moved);
                Ok(true)
            }
            None => Ok(false),
        }
    }

    fn get(&mut self, table: u32, id: i64, row: &mut Row) -> Result<bool, StoreError> {
        if self.has_failed() {
            return Err(StoreError::Broken);
        }
        match self.current().get(table as usize) {
            Some(rows) => Ok(rows.get(id, row)?),
            None => Ok(false),
        }
    }

    fn put(&mut self, table: u32, row: &Row) -> Result<(), StoreError> {
        if row.len() < 2 || !is_typed(row, self.catalog.reals(table)) {
            return Err(StoreError::Unstorable);
        }
        let change = Change::Put(row.copy(self.alloc)?);
        self.write(table, change)
    }

    fn delete(&mut self, table: u32, id: i64) -> Result<(), StoreError> {
        self.write(table, Change::Delete(id))
    }

    fn insert(&mut self, index: u32, entry: &Row) -> Result<(), StoreError> {
        if !is_typed(entry, self.catalog.reals(index)) {
            return Err(StoreError::Unstorable);
        }
        let change = Change::Insert(self.catalog.shape(index).order(), entry.copy(self.alloc)?);
        self.write(index, change)
    }

    fn remove(&mut self, index: u32, entry: &Row) -> Result<(), StoreError> {
        let change = Change::Remove(self.catalog.shape(index).order(), entry.copy(self.alloc)?);
        self.write(index, change)
    }

    fn commit(&mut self) -> Result<(), StoreError> {
        if let Err(error) = self.catalog.commit() {
            self.changed = None;
            self.log.clear();
            self.marks.clear();
            self.cursors.clear();
            return Err(error);
        }
        self.marks.clear();
        let log = mem::replace(&mut self.log, Vec::new(self.alloc));
        let changed = self.changed.take();
        let spare = self.spare.take();
        self.spare = logged::catch_up(self.alloc, &mut self.kept, changed, spare, log);
        Ok(())
    }

    fn rollback(&mut self) {
        self.catalog.rollback();
        self.changed = None;
        self.log.clear();
        self.marks.clear();
        self.cursors.clear();
    }

    fn savepoint(&mut self) -> Result<(), StoreError> {
        self.marks.push(self.log.len())?;
        if let Err(error) = self.catalog.savepoint() {
            self.marks.pop();
            return Err(error);
        }
        Ok(())
    }

    fn release(&mut self) -> Result<(), StoreError> {
        if let Err(error) = self.catalog.release() {
            return Err(error);
        }
        self.marks.pop();
        Ok(())
    }

    fn rollback_to(&mut self) -> Result<(), StoreError> {
        let Some(&count) = self.marks.last() else {
            return Ok(());
        };
        let trees = logged::led_by(self.alloc, self.kept.as_slice(), &self.log[..count])?;
        if let Err(error) = self.catalog.rollback_to() {
            return Err(error);
        }
        self.changed = Some(trees);
        self.log.truncate(count);
        self.cursors.clear();
        Ok(())
    }
}

impl Alter for MemoryStore {
    ghost use Rattle.memory_store.specs.Laws.{store_is_listed};

    ghost listed = { λ s _. store_is_listed s };

    fn objects(&self, alloc: Global) -> Result<Vec<Row>, AllocError> {
        self.catalog.objects(alloc)
    }

    fn create(&mut self, tree: u32, object: &Object<'_>) -> Result<(), StoreError> {
        self.catalog.create(tree, object)
    }

    fn destroy(&mut self, tree: u32) -> Result<(), StoreError> {
        self.begin()?;
        self.log.reserve(1)?;
        let Some(trees) = &mut self.changed else {
            return Err(StoreError::OutOfMemory);
        };
        if let Err(error) = self.catalog.destroy(tree) {
            return Err(error);
        }
        logged::clear(self.alloc, trees, tree as usize);
        self.log
            .push(Logged {
                tree: tree as usize,
                change: Change::Clear,
                place: RowPlace::start(),
            })
            .unwrap();
        self.cursors.clear();
        Ok(())
    }

    fn version(&self) -> u32 {
        self.catalog.version()
    }

    fn set_version(&mut self, version: u32) -> Result<(), StoreError> {
        self.catalog.set_version(version)
    }

    // No table of an office is altered, so this counts as out of memory.
    fn relist(&mut self, _changes: &[(u32, Object<'_>)]) -> Result<(), StoreError> {
        Err(StoreError::OutOfMemory)
    }
}
