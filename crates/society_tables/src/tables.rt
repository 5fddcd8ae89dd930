//! The store over a database.
ghost use Rattle.std.specs.Prelude.{◌≡◌, ◌<◌, ◌-◌, ◌^◌, IfErr, IfOk, IsTrue, false, true};
ghost use Rattle.sqlite.specs.Held.{state};
ghost use Rattle.sqlite.specs.State.{HasCleanDisk, IsLive};
ghost use Rattle.society_core.specs.Book.{empty_book};
ghost use Rattle.society_core.specs.declared.store.StoreFault.TheVariants.{Refused};
ghost use Rattle.society_book.specs.BookRows.{book_of};
ghost use Rattle.society_book.specs.Kept.{IsAtRest, Rests};

use crate::fault::store_answer;
use cwr_files::FileReader;
use memory_store::MemoryStore;
use share_rules::Office;
use society_arrivals::{arrive, state_end};
use society_book::{
    known_end_of, known_of, known_pool_of, known_return_of, payment_of, place_of, show,
    write_return,
};
use society_closings::close;
use society_core::{
    Inquiry, Known, KnownEnd, KnownTransmission, NumberPlace, Payment, PoolOrder, ReturnKey,
    Showing, Store, StoreFault,
};
use society_rows::{Found, Idle, OfficeRow, ReturnRow, RowFault, create, layout_found};
use sqlite::{Alter, Connection};
use sqlite_schema::schema::Schema;
use std::alloc::Global;
use work_ids::{PoolNumber, SegmentEnd, SenderKey, TransmissionNumber};

/// Failures that a store has counted when it begins.
const NO_FAILURES: u64 = 0;

/// An office's book in the tables of a database, with all that is derived from it. Each question is answered from the derived
/// rows; each addition is one transaction.
#[derive(Drop)]
pub struct Tables<S: Alter> {
    office: Office,
    conn: Idle<S>,
    failures: u64,
    ghost small: { failures < 2 ^ 64 },
    ghost rests: { ∥ Rests office (state S.Store conn) ∥₁ },
}

impl<S: Alter> Store for Tables<S> {
    ghost use Rattle.sqlite.specs.Held.{state};
    ghost use Rattle.society_book.specs.Kept.{tables_state};
    ghost use Rattle.society_tables.specs.Laws.{is_state};

    ghost state = { λ t. tables_state t.office (state S.Store t.conn) t.failures };

    fn office(&self) -> &Office {
        &self.office
    }

    fn known_transmission(
        &mut self,
        sender: &SenderKey,
        number: TransmissionNumber,
        body: &[u8],
    ) -> Result<KnownTransmission, StoreFault> {
        self.counts_on()?;
        let answer = known_of(&mut self.conn, sender.as_bytes(), number, body);
        store_answer(&mut self.failures, answer)
    }

    fn place(
        &mut self,
        sender: &SenderKey,
        number: TransmissionNumber,
    ) -> Result<NumberPlace, StoreFault> {
        self.counts_on()?;
        let answer = place_of(&mut self.conn, sender.as_bytes(), number);
        store_answer(&mut self.failures, answer)
    }

    fn known_end(&mut self, sender: &SenderKey, end: &SegmentEnd) -> Result<KnownEnd, StoreFault> {
        self.counts_on()?;
        let answer = known_end_of(&mut self.conn, sender.as_bytes(), end);
        store_answer(&mut self.failures, answer)
    }

    fn known_return(&mut self, key: &ReturnKey, body: &[u8]) -> Result<Known, StoreFault> {
        self.counts_on()?;
        let answer = known_return_of(&mut self.conn, key, body);
        store_answer(&mut self.failures, answer)
    }

    fn payment(&mut self, key: &ReturnKey) -> Result<Payment, StoreFault> {
        self.counts_on()?;
        let answer = payment_of(&mut self.conn, key);
        store_answer(&mut self.failures, answer)
    }

    fn known_pool(&mut self, pool: PoolNumber, order: &PoolOrder) -> Result<Known, StoreFault> {
        self.counts_on()?;
        let answer = known_pool_of(&mut self.conn, pool.value(), order);
        store_answer(&mut self.failures, answer)
    }

    fn show(&mut self, alloc: Global, inquiry: &Inquiry) -> Result<Option<Showing>, StoreFault> {
        self.counts_on()?;
        let answer = show(alloc, &mut self.conn, &self.office, inquiry);
        store_answer(&mut self.failures, answer)
    }

    fn add_transmission(
        &mut self,
        alloc: Global,
        number: TransmissionNumber,
        reader: FileReader,
    ) -> Result<NumberPlace, StoreFault> {
        self.counts_on()?;
        let answer = arrive(
            alloc,
            &mut self.conn,
            &self.office,
            reader.sender(),
            number,
            reader.body(),
        );
        store_answer(&mut self.failures, answer)
    }

    fn add_end(
        &mut self,
        alloc: Global,
        sender: &SenderKey,
        end: &SegmentEnd,
    ) -> Result<u32, StoreFault> {
        self.counts_on()?;
        let answer = state_end(alloc, &mut self.conn, &self.office, sender, end);
        store_answer(&mut self.failures, answer)
    }

    fn add_return(
        &mut self,
        _alloc: Global,
        key: &ReturnKey,
        body: &[u8],
    ) -> Result<(), StoreFault> {
        self.counts_on()?;
        let row = ReturnRow {
            reporter: key.reporter.as_bytes(),
            number: key.number.value(),
            body,
        };
        let answer = write_return(&mut self.conn, &row);
        store_answer(&mut self.failures, answer)
    }

    fn add_pool(
        &mut self,
        alloc: Global,
        pool: PoolNumber,
        order: &PoolOrder,
    ) -> Result<(), StoreFault> {
        self.counts_on()?;
        let answer = close(alloc, &mut self.conn, &self.office, pool, order);
        store_answer(&mut self.failures, answer)
    }

    ghost laws = { λ t. is_state t.office (state S.Store.own t.conn) t.failures (λ db is_open left. S.settled t.conn.store db is_open left) t.rests };
}

impl<S: Alter> Tables<S> {
    // Refused where the store has counted all the failures that it can.
    fn counts_on(&self) -> Result<(), StoreFault>
        ensures room { IfOk result (λ _. self.now.failures < 2 ^ 64 - 1) }
        ensures err { IfErr result (λ fault. (fault ≡ Refused) × (self.now.failures ≡ 2 ^ 64 - 1)) }
    {
        if self.failures == u64::MAX {
            Err(StoreFault::Refused)
        } else {
            Ok(())
        }
    }

    /// The connection that the tables lie behind; it is in no transaction. That of a clean store is open, shows what the last
    /// commit left, and has layout 3 with the store's book and what is derived from it.
    pub fn into_connection(self) -> Connection<S>
        ensures same { result ≡ self.conn }
        ensures idle { result.in_transaction ≡ false }
        ensures live { IsTrue (⟦<Tables<S> as Store>⟧.state self).is_clean → HasCleanDisk (state S.Store result) × IsTrue (state S.Store result).is_open }
        ensures rests { IsTrue (⟦<Tables<S> as Store>⟧.state self).is_clean → ∥ IsAtRest (⟦<Tables<S> as Store>⟧.state self).office (state S.Store result) ∥₁ }
        ensures book { (⟦<Tables<S> as Store>⟧.state self).book ≡ book_of (state S.Store result).now.trees }
    {
        let Tables { conn, .. } = self;
        conn.into_connection()
    }
}

impl<S: Alter> Tables<S> {
    /// The schema of the database, which obeys it.
    pub fn schema(&self) -> &Schema
        ensures live { IsLive (state S.Store self.now.conn) }
    {
        let conn = &self.conn;
        conn.connection.schema()
    }

    /// The tables of an office that lie behind a connection at rest, which has layout 3 with a book of the office where it is clean and
    /// open; no failure is counted.
    pub fn over(conn: Idle<S>, office: &Office) -> Tables<S>
        requires rests { ∥ Rests office.now (state S.Store conn) ∥₁ }
        ensures same { result.conn ≡ conn }
        ensures office { result.office ≡ office.now }
        ensures uncounted { result.failures ≡ 0 }
    {
        Tables {
            office: *office,
            conn,
            failures: NO_FAILURES,
        }
    }
}

impl Tables<MemoryStore> {
    /// The tables of an office to which nothing has come, in memory.
    pub fn in_memory(alloc: Global, office: &Office) -> Result<Tables<MemoryStore>, RowFault>
        ensures office { IfOk result (λ t. (⟦<Tables<MemoryStore> as Store>⟧.state t).office ≡ office.now) }
        ensures empty { IfOk result (λ t. (⟦<Tables<MemoryStore> as Store>⟧.state t).book ≡ empty_book) }
        ensures clean { IfOk result (λ t. (⟦<Tables<MemoryStore> as Store>⟧.state t).is_clean ≡ true) }
        // A store that has counted all failures refuses every call.
        ensures uncounted { IfOk result (λ t. (⟦<Tables<MemoryStore> as Store>⟧.state t).failures ≡ 0) }
    {
        let connection = match Connection::over(alloc, MemoryStore::new(alloc)?) {
            Ok(connection) => connection,
            Err((error, _)) => return Err(error.into()),
        };
        let mut conn = Idle { connection };
        let Found::Nothing = layout_found(&conn) else {
            return Err(RowFault::Schema);
        };
        let row = OfficeRow {
            society: u32::from(office.society),
            territory: u32::from(office.territory),
            name: office.name(),
        };
        create(&mut conn, &row)?;
        Ok(Tables {
            office: *office,
            conn,
            failures: NO_FAILURES,
        })
    }
}
