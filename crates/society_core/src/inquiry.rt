//! What the office is asked to show, and what it shows.
use crate::answers::{SenderStatus, Work};
use pool_split::Credit;
use work_ids::{Account, PoolNumber, SenderKey, TransmissionNumber, WorkNumber};
use works_core::Verdict;

/// A question: what of the book is asked to be shown. It changes nothing.
#[derive(Clone, Copy)]
pub enum Inquiry {
    /// The acknowledgement of a sender's transmission.
    Acknowledgement {
        sender: SenderKey,
        number: TransmissionNumber,
    },
    /// How a sender stands.
    Sender {
        sender: SenderKey,
    },
    /// A sender's work.
    Work {
        sender: SenderKey,
        work: WorkNumber,
    },
    /// The verdicts of a sender's transmission.
    Verdicts {
        sender: SenderKey,
        number: TransmissionNumber,
    },
    /// The credits of a pool.
    Credits {
        pool: PoolNumber,
    },
    /// The balance of an account.
    Balance {
        account: Account,
    },
}

/// What is shown to a question.
#[derive(Drop)]
pub enum Showing {
    /// The bytes of an acknowledgement.
    Acknowledgement(Vec<u8>),
    /// How a sender stands.
    Sender(SenderStatus),
    /// What is shown of a work.
    Work(Work),
    /// One verdict for each NWR and REV transaction, in the order of the file.
    Verdicts(Vec<Verdict>),
    /// The credits of a pool.
    Credits(Vec<Credit>),
    /// The units of money that an account has come to.
    Balance(Account, u64),
}
