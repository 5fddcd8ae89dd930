//! A store in memory.
ghost use Rattle.std.specs.Prelude.{◌≡◌, is_ok, true};
ghost use Rattle.society_core.specs.Asked.{IsPlaceOf, KnowsAs};
ghost use Rattle.society_core.specs.Book.{IsSound};
ghost use Rattle.society_core.specs.Plain.{AsksPlain};

use crate::inquiry::{Inquiry, Showing};
use crate::order::PoolOrder;
use crate::plain_book::PlainBook;
use crate::plain_lines::{known_end_in, known_in};
use crate::plain_pools::{known_pool_in, known_return_in, payment_of};
use crate::plain_showings::showing_in;
use crate::return_key::ReturnKey;
use crate::store::{Known, KnownEnd, KnownTransmission, NumberPlace, Payment, Store, StoreFault};
use cwr_files::FileReader;
use share_rules::Office;
use std::alloc::Global;
use work_ids::{PoolNumber, SegmentEnd, SenderKey, TransmissionNumber};

/// A store in memory that keeps the four maps of the book and the senders' fronts, and computes every other answer from
/// them anew.
#[derive(Drop)]
pub struct PlainStore {
    office: Office,
    book: PlainBook,
    ghost sound: { IsSound book },
}

impl PlainStore {
    ghost use Rattle.society_core.specs.Book.{empty_book};

    /// The store of an office to which nothing has come.
    pub fn new(alloc: Global, office: &Office) -> PlainStore
        ensures office { (⟦<PlainStore as Store>⟧.state result).office ≡ office.now }
        ensures empty { (⟦<PlainStore as Store>⟧.state result).book ≡ empty_book }
        ensures clean { (⟦<PlainStore as Store>⟧.state result).is_clean ≡ true }
    {
        PlainStore {
            office: *office,
            book: PlainBook::new(alloc),
        }
    }
}

impl Store for PlainStore {
    ghost use Rattle.society_core.specs.Plain.{plain_state};

    ghost state = { λ s. plain_state s.office s.book };

    fn office(&self) -> &Office {
        &self.office
    }

    fn known_transmission(
        &mut self,
        sender: &SenderKey,
        number: TransmissionNumber,
        body: &[u8],
    ) -> Result<KnownTransmission, StoreFault>
        ensures question { AsksPlain self.old.office self.old.book self.new.office self.new.book result (λ s. KnowsAs s sender.now number body.now) }
        ensures never { is_ok result ≡ true }
    {
        Ok(known_in(&self.book, sender, number, body))
    }

    fn place(
        &mut self,
        sender: &SenderKey,
        number: TransmissionNumber,
    ) -> Result<NumberPlace, StoreFault>
        ensures question { AsksPlain self.old.office self.old.book self.new.office self.new.book result (λ s. IsPlaceOf s sender.now number) }
        ensures never { is_ok result ≡ true }
    {
        Ok(self.book.place(sender, number))
    }

    fn known_end(&mut self, sender: &SenderKey, end: &SegmentEnd) -> Result<KnownEnd, StoreFault> {
        Ok(known_end_in(&self.book, sender, end))
    }

    fn known_return(&mut self, key: &ReturnKey, body: &[u8]) -> Result<Known, StoreFault> {
        Ok(known_return_in(&self.book, key, body))
    }

    fn payment(&mut self, key: &ReturnKey) -> Result<Payment, StoreFault> {
        Ok(payment_of(&self.book, key))
    }

    fn known_pool(&mut self, pool: PoolNumber, order: &PoolOrder) -> Result<Known, StoreFault> {
        Ok(known_pool_in(&self.book, pool, order))
    }

    fn show(&mut self, alloc: Global, inquiry: &Inquiry) -> Result<Option<Showing>, StoreFault> {
        Ok(showing_in(alloc, &self.office, &self.book, inquiry)?)
    }

    fn add_transmission(
        &mut self,
        _alloc: Global,
        number: TransmissionNumber,
        reader: FileReader,
    ) -> Result<NumberPlace, StoreFault> {
        let sender = *reader.sender();
        // What these two say of themselves is part of what a sound book says.
        let (_key, _number) = (sender.as_bytes(), number.value());
        let body = reader.into_body();
        Ok(self.book.insert_transmission(&sender, number, body)?)
    }

    fn add_end(
        &mut self,
        _alloc: Global,
        sender: &SenderKey,
        end: &SegmentEnd,
    ) -> Result<u32, StoreFault> {
        // What these two say of themselves is part of what a sound book says.
        let (_key, _last) = (sender.as_bytes(), end.last());
        Ok(self.book.insert_end(sender, end)?)
    }

    fn add_return(
        &mut self,
        alloc: Global,
        key: &ReturnKey,
        body: &[u8],
    ) -> Result<(), StoreFault> {
        // That the key is of a reporter and a number within the limits is part of what a sound book says.
        let _reporter = key.reporter.as_bytes();
        let _number = key.number.value();
        Ok(self.book.insert_return(alloc, key, body)?)
    }

    fn add_pool(
        &mut self,
        alloc: Global,
        pool: PoolNumber,
        order: &PoolOrder,
    ) -> Result<(), StoreFault> {
        Ok(self.book.insert_pool(alloc, pool, order)?)
    }

    ghost laws = { λ s. record { honest = λ clean. clean; at_rest = λ _ _ left. absurd left; sound = λ _. s.sound } };
}
