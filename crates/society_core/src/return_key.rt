//! Where a performance return stands in the book.
use work_ids::{Reporter, ReturnNumber};

/// A reporter and a number: where a performance return stands in the book.
#[derive(Clone, Copy, Debug, PartialEq, Eq, PartialOrd, Ord)]
pub struct ReturnKey {
    pub reporter: Reporter,
    pub number: ReturnNumber,
}
