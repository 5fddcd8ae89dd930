//! The desk of the office.
ghost use Rattle.std.specs.Prelude.{◌≡◌, ℕ, List, IfOk, IsTrue};
ghost use Rattle.cwr_files.specs.Fed.{WasFed};
ghost use Rattle.society_core.specs.Answers.{arrival_at, cut_refusal, first_refusal, return_refusal};
ghost use Rattle.society_core.specs.Requests.{Puts, States, PutsReturn, Closes, Arrived, Ended, Stored, Closed, shown_to, showing_of, told};
ghost use Rattle.society_core.specs.Runs.{LooksUp, Proceeds, RefusesBy, RefusesTruly};
ghost use Rattle.society_core.specs.State.{ChangesNothing};

use crate::answers::{Arrival, Receipt, Standing};
use crate::inquiry::{Inquiry, Showing};
use crate::order::PoolOrder;
use crate::refusal::Refusal;
use crate::return_key::ReturnKey;
use crate::store::{Known, KnownEnd, KnownTransmission, NumberPlace, Payment, Store};
use crate::transmission_key::TransmissionKey;
use cwr_files::{FileReader, ReadFault};
use perf_returns::read_return;
use share_rules::Office;
use std::alloc::{AllocError, Global};
use std::marker::Model;
use work_ids::{PoolNumber, SegmentEnd, SenderKey, TransmissionNumber};

/// The desk of the office: it answers requests over the book that a store keeps. Clauses see the store.
#[derive(Drop)]
pub struct Desk<S: Store> {
    store: S,
}

impl<S: Store> Model for Desk<S> {
    ghost Value = { S };

    ghost coded = { S.code };

    ghost view = { λ desk. desk.store };
}

// How a transmission stands at a place, and whether it came again.
fn arrival(known: bool, place: NumberPlace) -> Arrival
    ensures { result ≡ arrival_at known place }
{
    Arrival {
        known,
        front: place.front,
        standing: if place.is_applied {
            Standing::Applied
        } else {
            Standing::Held
        },
    }
}

// A reader that was fed a whole body.
fn read_whole(alloc: Global, sender: &SenderKey, body: &[u8]) -> Result<FileReader, AllocError>
    ensures { IfOk result (λ reader. (reader.sender ≡ sender.now) × WasFed reader body.now) }
{
    let mut reader = FileReader::new(alloc, sender);
    match reader.feed(body) {
        Ok(()) => Ok(reader),
        Err(ReadFault::File(_)) => Ok(reader),
        Err(ReadFault::Memory) => Err(AllocError),
    }
}

impl<S: Store> Desk<S> {
    /// The desk over a store.
    pub fn new(store: S) -> Desk<S>
        ensures { result ≡ store }
    {
        Desk { store }
    }

    /// Gives the store back.
    pub fn into_store(self) -> S
        ensures { result ≡ self }
    {
        self.store
    }

    /// The office whose book it is.
    pub fn office(&self) -> &Office
        ensures { result.now ≡ (S.state self.now).office }
    {
        self.store.office()
    }

    /// Puts a sender's transmission under a number: a repeat, or added; `Reused` where the number has other
    /// bytes, `File` where the body is no transmission of the sender, `Ended` where the number is above the last that the
    /// sender stated of its segment, `Unavailable` for want of memory or where the store refuses. A refusal leaves the book as it was.
    pub fn put_transmission(
        &mut self,
        alloc: Global,
        sender: &SenderKey,
        number: TransmissionNumber,
        body: &[u8],
    ) -> Result<Arrival, Refusal>
        ensures { Proceeds (S.state self.old) (S.state self.new) (Puts sender.now number body.now) (told Arrived result) }
    {
        let reader = read_whole(alloc, sender, body)?;
        self.put_fed(alloc, sender, number, reader)
    }

    /// Puts what a reader was fed, as `put_transmission` does all these bytes; none that follow a fault that the reader
    /// knows makes a difference. The reader was made for this sender, and is given up.
    pub fn put_fed(
        &mut self,
        alloc: Global,
        sender: &SenderKey,
        number: TransmissionNumber,
        reader: FileReader,
    ) -> Result<Arrival, Refusal>
        requires { reader.sender ≡ sender.now }
        ensures { (bytes : List ℕ) → WasFed reader bytes → Proceeds (S.state self.old) (S.state self.new) (Puts sender.now number bytes) (told Arrived result) }
    {
        self.put_kept(alloc, sender, number, reader)
    }

    // Puts the bytes that a reader keeps. A call of its own for the proof: its clause is about these bytes alone, and from it
    // follows what `put_fed` says of all that were fed.
    fn put_kept(
        &mut self,
        alloc: Global,
        sender: &SenderKey,
        number: TransmissionNumber,
        reader: FileReader,
    ) -> Result<Arrival, Refusal>
        requires { reader.sender ≡ sender.now }
        ensures { Proceeds (S.state self.old) (S.state self.new) (Puts sender.now number reader.body) (told Arrived result) }
    {
        match self
            .store
            .known_transmission(sender, number, reader.body())?
        {
            KnownTransmission::Same(place) => Ok(arrival(true, place)),
            KnownTransmission::Other => Err(Refusal::Reused),
            KnownTransmission::Ended(last) => match reader.fault() {
                Some(fault) => Err(Refusal::File(fault)),
                None => Err(Refusal::Ended { last }),
            },
            KnownTransmission::Absent => {
                if let Some(fault) = reader.fault() {
                    return Err(Refusal::File(fault));
                }
                let place = self.store.add_transmission(alloc, number, reader)?;
                Ok(arrival(false, place))
            }
        }
    }

    /// Takes down where a sender says that a segment of its numbers ends, and tells the sender's front then, as a rank: a
    /// repeat, or added; `Reused` where the sender stated another end of the segment, `Segment` with the greatest number of
    /// its transmissions that is above the end, `Unavailable` for want of memory or where the store refuses. A refusal leaves
    /// the book as it was.
    pub fn put_end(
        &mut self,
        alloc: Global,
        sender: &SenderKey,
        end: &SegmentEnd,
    ) -> Result<(Receipt, u32), Refusal>
        ensures { Proceeds (S.state self.old) (S.state self.new) (States sender.now end.now) (told (λ kept. Ended kept.0 kept.1) result) }
    {
        // That an end has no fault is part of what it says of itself.
        let _last = end.last();
        match self.store.known_end(sender, end)? {
            KnownEnd::Same(front) => Ok((Receipt::Repeated, front)),
            KnownEnd::Other => Err(Refusal::Reused),
            KnownEnd::Passed(number) => Err(Refusal::Segment { number }),
            KnownEnd::Absent => {
                let front = self.store.add_end(alloc, sender, end)?;
                Ok((Receipt::New, front))
            }
        }
    }

    /// Puts a performance return: stored or a repeat; `Reused` where its number has other bytes, `Csv` where the body
    /// is no return, `Unavailable` for want of memory or where the store refuses. A refusal leaves the book as it was.
    pub fn put_return(
        &mut self,
        alloc: Global,
        key: &ReturnKey,
        body: &[u8],
    ) -> Result<Receipt, Refusal>
        ensures { Proceeds (S.state self.old) (S.state self.new) (PutsReturn key.now body.now) (told Stored result) }
    {
        match self.store.known_return(key, body)? {
            Known::Same => Ok(Receipt::Repeated),
            Known::Other => Err(Refusal::Reused),
            Known::Absent => {
                read_return(alloc, body)?;
                self.store.add_return(alloc, key, body)?;
                Ok(Receipt::New)
            }
        }
    }

    // Refuses the first key of a cut that is not in its sender's line.
    fn check_cut(&mut self, cut: &[TransmissionKey]) -> Result<(), Refusal>
        ensures asks { ChangesNothing (S.state self.old) (S.state self.new) }
        ensures refusal { IsTrue (S.state self.new).is_clean → RefusesBy (first_refusal (cut_refusal (S.state self.old).book) cut.now) result }
        ensures told { IsTrue (S.state self.new).is_honest → RefusesTruly (S.state self.old) (first_refusal (cut_refusal (S.state self.old).book) cut.now) result }
    {
        for key in cut {
            let place = self.store.place(&key.sender, key.number)?;
            if !place.is_applied {
                return Err(Refusal::Cut {
                    sender: key.sender,
                    front: place.front,
                });
            }
        }
        Ok(())
    }

    // Refuses the first return that is unknown, or that a pool has paid.
    fn check_returns(&mut self, returns: &[ReturnKey]) -> Result<(), Refusal>
        ensures asks { ChangesNothing (S.state self.old) (S.state self.new) }
        ensures refusal { IsTrue (S.state self.new).is_clean → RefusesBy (first_refusal (return_refusal (S.state self.old).book) returns.now) result }
        ensures told { IsTrue (S.state self.new).is_honest → RefusesTruly (S.state self.old) (first_refusal (return_refusal (S.state self.old).book) returns.now) result }
    {
        for key in returns {
            match self.store.payment(key)? {
                Payment::Unknown => return Err(Refusal::ReturnUnknown(*key)),
                Payment::Paid(pool) => return Err(Refusal::ReturnPaid { key: *key, pool }),
                Payment::Unpaid => {}
            }
        }
        Ok(())
    }

    /// Closes a pool by an order: closed or a repeat; `Reused` where the pool has another order, `Cut` for the first number
    /// of the cut that is not in its sender's line, `ReturnUnknown` or `ReturnPaid` for the first return that is unknown or
    /// paid, `Unavailable` for want of memory or where the store refuses. A refusal leaves the book as it was.
    pub fn close_pool(
        &mut self,
        alloc: Global,
        pool: PoolNumber,
        order: &PoolOrder,
    ) -> Result<Receipt, Refusal>
        ensures { Proceeds (S.state self.old) (S.state self.new) (Closes pool order.now) (told (λ receipt. Closed receipt pool) result) }
    {
        match self.store.known_pool(pool, order)? {
            Known::Same => Ok(Receipt::Repeated),
            Known::Other => Err(Refusal::Reused),
            Known::Absent => {
                self.check_cut(order.cut())?;
                self.check_returns(order.returns())?;
                self.store.add_pool(alloc, pool, order)?;
                Ok(Receipt::New)
            }
        }
    }

    /// What is shown to a question: `Unknown` where it is not there, as an acknowledgement or verdicts of a number that is not in
    /// its sender's line, a work without a version at the front, or a pool that is not closed; `Unavailable` for want of memory or
    /// where the store refuses. A sender of whom nothing came has front 0, an account without a credit has 0 units.
    pub fn look_up(&mut self, alloc: Global, inquiry: &Inquiry) -> Result<Showing, Refusal>
        ensures { LooksUp (S.state self.old) (S.state self.new) inquiry.now (shown_to showing_of result) }
    {
        match self.store.show(alloc, inquiry)? {
            Some(shown) => Ok(shown),
            None => Err(Refusal::Unknown),
        }
    }
}
