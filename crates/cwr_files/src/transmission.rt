//! A transmission, lent out of its body: header, groups, transactions, records.
ghost use Rattle.std.specs.Prelude.{◌≡◌};

use cwr_records::{Field, GroupHeader, Record, TransactionKind, TransmissionHeader, WorkRecord};
use std::marker::Model;
use work_ids::{IdFault, Iswc, WorkNumber};

/// The records of a transaction, one for each line, in order.
#[derive(Drop)]
pub struct Records<'a> {
    list: Vec<Record<'a>>,
}

impl<'a> Model for Records<'a> {
    ghost use Rattle.std.specs.Prelude.{List};
    ghost use Rattle.cwr_records.specs.declared.record.Record.{Record};

    ghost Value = { List Record };

    ghost view = { λ r. r.list.items };
}

impl<'a> Records<'a> {
    /// These records.
    pub fn from_vec(list: Vec<Record<'a>>) -> Records<'a>
        ensures { result ≡ list.entry.items }
    {
        Records { list }
    }

    /// The records, lent.
    pub fn as_slice(&self) -> &[Record<'a>]
        ensures { result.now ≡ self.now }
    {
        self.list.as_slice()
    }
}

/// A transaction: its kind, the ID of its group from 1, its transaction sequence number from 0, and its records.
#[derive(Drop)]
pub struct Transaction<'a> {
    pub kind: TransactionKind,
    pub group: u32,
    pub sequence: u32,
    pub records: Records<'a>,
}

impl<'a> Transaction<'a> {
    ghost use Rattle.std.specs.Prelude.{length, ◌≤◌};
    ghost use Rattle.std.specs.Option.{option_copied};
    ghost use Rattle.std.specs.Result.{result_ok};
    ghost use Rattle.cwr_files.specs.Transaction.{first_work, iswc_of_work, number_of_work, submitter_number, title_of};

    /// The record that begins the transaction, NWR or REV; none where another one does.
    pub fn work(&self) -> Option<&WorkRecord<'a>>
        ensures { option_copied result ≡ first_work self.now.records }
    {
        match self.records.as_slice() {
            [first, ..] => match first {
                Record::Work(work) => Some(work),
                _ => None,
            },
            [] => None,
        }
    }

    /// The title, as it came; no bytes where the transaction begins with no work.
    pub fn title(&self) -> Field<'a>
        ensures value { result ≡ title_of self.now }
        ensures width { length result ≤ 60 }
    {
        match self.work() {
            Some(work) => work.title.field(),
            None => Field::new(b"", 0),
        }
    }

    /// The submitter's number of the work, as it came; no bytes where the transaction begins with no work.
    pub fn submitter_number(&self) -> Field<'a>
        ensures value { result ≡ submitter_number (first_work self.now.records) }
        ensures width { length result ≤ 14 }
    {
        match self.work() {
            Some(work) => work.work_number.field(),
            None => Field::new(b"", 0),
        }
    }

    /// The work number, if it is one (CISAC CWR 2.2; the characters: profile).
    pub fn work_number(&self) -> Option<WorkNumber>
        ensures { result ≡ result_ok (number_of_work self.now) }
    {
        let work = self.work()?;
        work.work_number().ok()
    }

    /// The ISWC, none where its field is blank (ISO 15707); else the least of `Length`, `Character` and `CheckDigit`
    /// that holds; `Length` where the transaction begins with no work.
    #[tactic(auto, unfolding(work_ids::specs::Iswc::iswc_of))]
    pub fn iswc(&self) -> Result<Option<Iswc>, IdFault>
        ensures { result ≡ iswc_of_work self.now }
    {
        match self.work() {
            Some(work) => work.iswc(),
            None => Err(IdFault::Length),
        }
    }
}

/// The transactions of a group, in order.
#[derive(Drop)]
pub struct Transactions<'a> {
    list: Vec<Transaction<'a>>,
}

impl<'a> Model for Transactions<'a> {
    ghost use Rattle.std.specs.Prelude.{List};
    ghost use Rattle.cwr_files.specs.declared.transmission.Transaction.{Transaction};

    ghost Value = { List Transaction };

    ghost view = { λ t. t.list.items };
}

impl<'a> Transactions<'a> {
    /// These transactions.
    pub fn from_vec(list: Vec<Transaction<'a>>) -> Transactions<'a>
        ensures { result ≡ list.entry.items }
    {
        Transactions { list }
    }

    /// The transactions, lent.
    pub fn as_slice(&self) -> &[Transaction<'a>]
        ensures { result.now ≡ self.now }
    {
        self.list.as_slice()
    }
}

/// A group: its header's fields, and its transactions; none where its type is neither NWR nor REV.
#[derive(Drop)]
pub struct Group<'a> {
    pub header: GroupHeader<'a>,
    pub transactions: Transactions<'a>,
}

/// The groups of a transmission, in order.
#[derive(Drop)]
pub struct Groups<'a> {
    list: Vec<Group<'a>>,
}

impl<'a> Model for Groups<'a> {
    ghost use Rattle.std.specs.Prelude.{List};
    ghost use Rattle.cwr_files.specs.declared.transmission.Group.{Group};

    ghost Value = { List Group };

    ghost view = { λ g. g.list.items };
}

impl<'a> Groups<'a> {
    /// These groups.
    pub fn from_vec(list: Vec<Group<'a>>) -> Groups<'a>
        ensures { result ≡ list.entry.items }
    {
        Groups { list }
    }

    /// The groups, lent.
    pub fn as_slice(&self) -> &[Group<'a>]
        ensures { result.now ≡ self.now }
    {
        self.list.as_slice()
    }
}

/// A transmission: its header's fields, and its groups.
#[derive(Drop)]
pub struct Transmission<'a> {
    pub header: TransmissionHeader<'a>,
    pub groups: Groups<'a>,
}

impl<'a> Transmission<'a> {
    ghost use Rattle.std.specs.List.{slice_get};
    ghost use Rattle.std.specs.Option.{option_copied};
    ghost use Rattle.cwr_files.specs.Contents.{transactions_of};

    /// The transaction at a place, from 0, among those of types NWR and REV in the order of the file; none past the last.
    pub fn transaction(&self, place: usize) -> Option<&Transaction<'a>>
        ensures { option_copied result ≡ slice_get (transactions_of self.now) place }
    {
        let mut left = place;
        for group in self.groups.as_slice() {
            let transactions = group.transactions.as_slice();
            if left < transactions.len() {
                return Some(&transactions[left]);
            }
            left -= transactions.len();
        }
        None
    }
}
