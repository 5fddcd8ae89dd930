//! What is judged of a transaction.
use cwr_records::TransactionKind;
use work_ids::WorkNumber;

/// A transaction as its faults leave it.
#[derive(Clone, Copy, Debug, PartialEq, Eq)]
pub enum Judged {
    /// It has none: whether it registers or revises, and which work.
    Clean(TransactionKind, WorkNumber),
    /// It has this one, the least.
    Faulty(u8),
}
