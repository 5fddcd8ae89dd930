//! A store whose medium fails at every call.
ghost use Rattle.std.specs.Prelude.{◌≡◌, Err};
ghost use Rattle.society_core.specs.declared.store.StoreFault.TheVariants.{Refused};
ghost use Rattle.test_store.specs.Failing.{MediumFails, failing_state};

use cwr_files::FileReader;
use share_rules::Office;
use society_core::{
    Inquiry, Known, KnownEnd, KnownTransmission, NumberPlace, Payment, PoolOrder, ReturnKey,
    Showing, Store, StoreFault,
};
use std::alloc::Global;
use work_ids::{PoolNumber, SegmentEnd, SenderKey, TransmissionNumber};

/// A store over an empty book whose medium fails at every call, as a disk that is gone: it answers nothing and adds nothing.
#[derive(Drop)]
pub struct FailingStore {
    office: Office,
    refusals: u64,
    faults: u64,
    is_clean: bool,
}

impl FailingStore {
    /// The store of an office, before its medium fails.
    pub fn new(office: &Office) -> FailingStore
        ensures { (⟦<FailingStore as Store>⟧.state result).office ≡ office.now }
    {
        FailingStore {
            office: *office,
            refusals: 0,
            faults: 0,
            is_clean: true,
        }
    }

    // Refuses since the medium fails, which it and the store count.
    fn refuse<T>(&mut self) -> Result<T, StoreFault>
        ensures fails { MediumFails (⟦<FailingStore as Store>⟧.state self.old) (⟦<FailingStore as Store>⟧.state self.new) }
        ensures refused { result ≡ Err Refused }
    {
        self.refusals = self.refusals.saturating_add(1);
        self.faults = self.faults.saturating_add(1);
        self.is_clean = false;
        Err(StoreFault::Refused)
    }
}

#[tactic(auto, using(crate::proofs::lemmas::FailingLemmas::addition_refused, crate::proofs::lemmas::FailingLemmas::question_refused))]
impl Store for FailingStore {
    ghost use Rattle.test_store.specs.Failing.{failing_state};
    ghost use Rattle.society_core.proofs.lemmas.Books.{empty_book_sound};
    ghost use Rattle.std.proofs.Common.{refl};

    ghost state = { λ s. failing_state s.office s.refusals s.faults s.is_clean };

    fn office(&self) -> &Office {
        &self.office
    }

    fn known_transmission(
        &mut self,
        _sender: &SenderKey,
        _number: TransmissionNumber,
        _body: &[u8],
    ) -> Result<KnownTransmission, StoreFault> {
        self.refuse()
    }

    fn place(
        &mut self,
        _sender: &SenderKey,
        _number: TransmissionNumber,
    ) -> Result<NumberPlace, StoreFault> {
        self.refuse()
    }

    fn known_end(
        &mut self,
        _sender: &SenderKey,
        _end: &SegmentEnd,
    ) -> Result<KnownEnd, StoreFault> {
        self.refuse()
    }

    fn known_return(&mut self, _key: &ReturnKey, _body: &[u8]) -> Result<Known, StoreFault> {
        self.refuse()
    }

    fn payment(&mut self, _key: &ReturnKey) -> Result<Payment, StoreFault> {
        self.refuse()
    }

    fn known_pool(&mut self, _pool: PoolNumber, _order: &PoolOrder) -> Result<Known, StoreFault> {
        self.refuse()
    }

    fn show(&mut self, _alloc: Global, _inquiry: &Inquiry) -> Result<Option<Showing>, StoreFault> {
        self.refuse()
    }

    fn add_transmission(
        &mut self,
        _alloc: Global,
        _number: TransmissionNumber,
        _reader: FileReader,
    ) -> Result<NumberPlace, StoreFault> {
        self.refuse()
    }

    fn add_end(
        &mut self,
        _alloc: Global,
        _sender: &SenderKey,
        _end: &SegmentEnd,
    ) -> Result<u32, StoreFault> {
        self.refuse()
    }

    fn add_return(
        &mut self,
        _alloc: Global,
        _key: &ReturnKey,
        _body: &[u8],
    ) -> Result<(), StoreFault> {
        self.refuse()
    }

    fn add_pool(
        &mut self,
        _alloc: Global,
        _pool: PoolNumber,
        _order: &PoolOrder,
    ) -> Result<(), StoreFault> {
        self.refuse()
    }

    ghost laws = { λ s. record { honest = λ _. refl; at_rest = λ _ book left. left; sound = λ _. empty_book_sound } };
}
