//! Cursors over the trees.
use crate::rows::RowPlace;
use sqlite_trees::store::Direction;

/// Where a cursor over a tree is; nowhere over a tree without rows.
#[derive(Clone, Copy)]
pub(crate) struct Cursor {
    pub tree: usize,
    pub place: Option<RowPlace>,
    pub direction: Direction,
}
