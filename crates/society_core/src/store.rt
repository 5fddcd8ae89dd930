//! What keeps the office's book.
ghost use Rattle.std.specs.Prelude.{◌≡◌, IsTrue, None, ⊤};
ghost use Rattle.cwr_files.specs.FileFault.{file_fault};
ghost use Rattle.perf_returns.specs.Returns.{return_fault};
ghost use Rattle.society_core.specs.Answers.{close_refusal, payment_in, pool_known_as};
ghost use Rattle.society_core.specs.Asked.{AddsArrival, AddsEnd, IsPlaceOf, IsReturnKnownAs, IsShownTo, KnowsAs, KnowsEndAs};
ghost use Rattle.society_core.specs.Book.{body_at, end_at, order_at, return_at, with_pool, with_return};
ghost use Rattle.society_core.specs.Ends.{ended_before, number_past, place_stated};
ghost use Rattle.society_core.specs.State.{Addition, IsState, Question, State};

use crate::inquiry::{Inquiry, Showing};
use crate::order::PoolOrder;
use crate::return_key::ReturnKey;
use cwr_files::FileReader;
use share_rules::Office;
use std::alloc::{AllocError, AllocFailed, Global};
use thiserror::Error;
use work_ids::{PoolNumber, SegmentEnd, SenderKey, TransmissionNumber};

/// What the book has under a number, beside a content that is asked for.
#[derive(Clone, Copy, Debug, PartialEq, Eq)]
pub enum Known {
    /// Nothing.
    Absent,
    /// The same content.
    Same,
    /// Another content.
    Other,
}

/// Where a number of a sender stands.
#[derive(Clone, Copy, Debug, PartialEq, Eq)]
pub struct NumberPlace {
    /// The sender's front, as a rank.
    pub front: u32,
    /// Whether the number is in the sender's line.
    pub is_applied: bool,
}

/// What the book has under a transmission's number.
#[derive(Clone, Copy, Debug, PartialEq, Eq)]
pub enum KnownTransmission {
    /// Nothing.
    Absent,
    /// Nothing, and the sender stated that the number's segment ends before it, with this number.
    Ended(u32),
    /// The same bytes; where the number stands.
    Same(NumberPlace),
    /// Other bytes.
    Other,
}

/// What the book has of a segment of a sender, beside an end that is asked for.
#[derive(Clone, Copy, Debug, PartialEq, Eq)]
pub enum KnownEnd {
    /// No end, and no transmission above the one that is asked for.
    Absent,
    /// No end, and transmissions above the one that is asked for, this number the last of them.
    Passed(TransmissionNumber),
    /// The same end; the sender's front, as a rank.
    Same(u32),
    /// Another end.
    Other,
}

/// Whether a return is there, and whether a pool has paid it.
#[derive(Clone, Copy, Debug, PartialEq, Eq)]
pub enum Payment {
    /// There is no such return.
    Unknown,
    /// No pool names it.
    Unpaid,
    /// This pool names it.
    Paid(PoolNumber),
}

/// Why a store gives no answer.
#[derive(Clone, Copy, Debug, PartialEq, Eq, Error)]
pub enum StoreFault {
    /// Memory was refused.
    #[error("out of memory")]
    Memory,
    /// The store's medium failed in this call; the store's count of failures rose, or stands at its greatest.
    #[error("the store refuses")]
    Refused,
}

impl From<AllocError> for StoreFault {
    ghost use Rattle.society_core.specs.declared.store.StoreFault.TheVariants.{Memory};

    ghost from_gives = { λ _ fault. fault ≡ Memory };

    fn from(_fault: AllocError) -> StoreFault {
        StoreFault::Memory
    }
}

impl<T: Drop> From<AllocFailed<T>> for StoreFault {
    ghost use Rattle.society_core.specs.declared.store.StoreFault.TheVariants.{Memory};

    ghost from_gives = { λ _ fault. fault ≡ Memory };

    fn from(_fault: AllocFailed<T>) -> StoreFault {
        StoreFault::Memory
    }
}

/// Where the office's book is kept. What it answers is a function of the office and the book, whichever way
/// they are kept, as long as the store is clean when the call ends.
pub trait Store {
    /// What the store shows of itself.
    ghost state: { Self → State };

    /// The office.
    fn office(&self) -> &Office
        ensures { result.now ≡ (state self.now).office };

    /// What the book has under a transmission's number, with its place where it is these bytes.
    fn known_transmission(
        &mut self,
        sender: &SenderKey,
        number: TransmissionNumber,
        body: &[u8],
    ) -> Result<KnownTransmission, StoreFault>
        ensures question { Question (state self.old) (state self.new) result (KnowsAs (state self.old) sender.now number body.now) };

    /// Where a number of a sender stands.
    fn place(
        &mut self,
        sender: &SenderKey,
        number: TransmissionNumber,
    ) -> Result<NumberPlace, StoreFault>
        ensures question { Question (state self.old) (state self.new) result (IsPlaceOf (state self.old) sender.now number) };

    /// What the book has of the segment of an end.
    fn known_end(&mut self, sender: &SenderKey, end: &SegmentEnd) -> Result<KnownEnd, StoreFault>
        ensures { Question (state self.old) (state self.new) result (KnowsEndAs (state self.old) sender.now end.now) };

    /// Whether the book has a return, another one under its key, or none.
    fn known_return(&mut self, key: &ReturnKey, body: &[u8]) -> Result<Known, StoreFault>
        ensures { Question (state self.old) (state self.new) result (IsReturnKnownAs (state self.old) key.now body.now) };

    /// Whether a return is there and paid.
    fn payment(&mut self, key: &ReturnKey) -> Result<Payment, StoreFault>
        ensures { Question (state self.old) (state self.new) result (λ payment. payment ≡ payment_in (state self.old).book key.now) };

    /// Whether the book has an order, another one under its pool, or none.
    fn known_pool(&mut self, pool: PoolNumber, order: &PoolOrder) -> Result<Known, StoreFault>
        ensures { Question (state self.old) (state self.new) result (λ known. known ≡ pool_known_as (state self.old).book pool order.now) };

    /// What is shown to a question, none where it is not there.
    fn show(&mut self, alloc: Global, inquiry: &Inquiry) -> Result<Option<Showing>, StoreFault>
        ensures { Question (state self.old) (state self.new) result (IsShownTo (state self.old).office (state self.old).book inquiry.now) };

    /// Adds what a reader was fed, a transmission of its sender, under a number that is free and not above the end of its
    /// segment, and tells where the number stands then. The store may keep the bytes as they lie. After an error the book is
    /// as before.
    fn add_transmission(
        &mut self,
        alloc: Global,
        number: TransmissionNumber,
        reader: FileReader,
    ) -> Result<NumberPlace, StoreFault>
        requires free { IsTrue (state self.old).is_clean → body_at (state self.old).book reader.sender number ≡ None }
        requires within { IsTrue (state self.old).is_clean → ended_before (state self.old).book reader.sender number ≡ None }
        requires right { file_fault reader.sender reader.body ≡ None }
        ensures { AddsArrival (state self.old) (state self.new) reader.sender number reader.body result };

    /// Adds an end that a sender stated of a segment without one, above which nothing is, and tells the sender's front then,
    /// as a rank. After an error the book is as before.
    fn add_end(
        &mut self,
        alloc: Global,
        sender: &SenderKey,
        end: &SegmentEnd,
    ) -> Result<u32, StoreFault>
        requires free { IsTrue (state self.old).is_clean → end_at (state self.old).book sender.now (place_stated end.now) ≡ None }
        requires above { IsTrue (state self.old).is_clean → number_past (state self.old).book sender.now (place_stated end.now) end.now.last ≡ None }
        ensures { AddsEnd (state self.old) (state self.new) sender.now end.now result };

    /// Adds a return under a key that is free. After an error the book is as before.
    fn add_return(&mut self, alloc: Global, key: &ReturnKey, body: &[u8]) -> Result<(), StoreFault>
        requires free { IsTrue (state self.old).is_clean → return_at (state self.old).book key.now ≡ None }
        requires right { return_fault body.now ≡ None }
        ensures { Addition (state self.old) (state self.new) (with_return (state self.old).book key.now body.now) result (λ _. ⊤) };

    /// Closes a pool that is not closed by an order that nothing refuses. After an error the book is as before.
    fn add_pool(
        &mut self,
        alloc: Global,
        pool: PoolNumber,
        order: &PoolOrder,
    ) -> Result<(), StoreFault>
        requires free { IsTrue (state self.old).is_clean → order_at (state self.old).book pool ≡ None }
        requires right { IsTrue (state self.old).is_clean → close_refusal (state self.old).book order.now ≡ None }
        ensures { Addition (state self.old) (state self.new) (with_pool (state self.old).book pool order.now) result (λ _. ⊤) };

    /// What holds of every store.
    ghost laws: { (s : Self) → IsState (state s) };
}
