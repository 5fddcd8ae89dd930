//! What is noted of the transmissions with which a sender's front goes on.
ghost use Rattle.std.specs.Prelude.{◌≡◌, ◌∷◌, ◌++◌, [], None, flat_map, map, option_map, IfOk, OnOk};
ghost use Rattle.std.specs.BTreeSet.{IsFromIterResult};
ghost use Rattle.std.specs.List.{slice_get};
ghost use Rattle.cwr_files.specs.FileFault.{file_fault};
ghost use Rattle.society_core.specs.Keys.{ascending, bytes_cmp};
ghost use Rattle.society_book.specs.Errors.{Blames};
ghost use Rattle.society_arrivals.specs.Going.{IsRightSent};
ghost use Rattle.society_arrivals.specs.Runs.{clean_works, notes_in, notes_of, take_row};
ghost use Rattle.works_core.specs.Recordings.{isrcs_of};

use cwr_files::{Group, Transaction, Transmission, known_transmission};
use share_rules::Office;
use society_book::read_body;
use society_rows::{RowFault, RowFold, TransmissionRow};
use sqlite::Row;
use std::alloc::{AllocError, Global};
use std::collections::BTreeSet;
use std::marker::Model;
use work_ids::{Isrc, SenderKey, TransmissionNumber, WorkNumber};
use works_core::{Judged, isrcs, judge_all};

/// What is noted of a transmission: its number, what is judged of each of its transactions, and the ISRCs of each, ascending,
/// each once.
#[derive(Drop)]
pub struct Noted {
    number: TransmissionNumber,
    judgements: Vec<Judged>,
    isrcs: Vec<Vec<Isrc>>,
}

impl Model for Noted {
    ghost use Rattle.std.specs.Prelude.{map};
    ghost use Rattle.society_arrivals.specs.Runs.{Notes};

    ghost Value = { Notes };

    ghost view = { λ n. record { number = n.number; judged = n.judgements.items; isrcs = map (λ list. list.items) n.isrcs.items } };
}

// The set of some ISRCs.
fn distinct_isrcs(alloc: Global, list: Vec<Isrc>) -> Result<BTreeSet<Isrc>, AllocError>
    ensures { IfOk result (IsFromIterResult bytes_cmp list.items) }
{
    list.into_iter().collect(alloc)
}

// The ISRCs of a transaction, ascending, each once.
fn ascending_isrcs(alloc: Global, transaction: &Transaction<'_>) -> Result<Vec<Isrc>, AllocError>
    ensures { IfOk result (λ list. list.items ≡ ascending bytes_cmp (isrcs_of transaction.now)) }
{
    let set = distinct_isrcs(alloc, isrcs(alloc, transaction)?)?;
    set.iter().copied().collect(alloc)
}

// Appends the ISRCs of each of these transactions.
fn append_isrcs(
    alloc: Global,
    transactions: &[Transaction<'_>],
    list: &mut Vec<Vec<Isrc>>,
) -> Result<(), AllocError>
    ensures { OnOk result (map (λ l. l.items) list.new.items ≡ map (λ l. l.items) list.old.items ++ map (λ x. ascending bytes_cmp (isrcs_of x)) transactions.now) }
{
    for transaction in transactions {
        let mut found = ascending_isrcs(alloc, transaction)?;
        found.shrink_to_fit();
        list.push(found)?;
    }
    Ok(())
}

// The ISRCs of each transaction of all groups, in the order of the file.
fn isrcs_of_groups(alloc: Global, groups: &[Group<'_>]) -> Result<Vec<Vec<Isrc>>, AllocError>
    ensures { IfOk result (λ list. map (λ l. l.items) list.items ≡ map (λ x. ascending bytes_cmp (isrcs_of x)) (flat_map (λ g. g.transactions) groups.now)) }
{
    let mut list = Vec::new(alloc);
    for group in groups {
        append_isrcs(alloc, group.transactions.as_slice(), &mut list)?;
    }
    Ok(list)
}

// Appends the work numbers of the clean ones of these transactions.
fn append_works(judged: &[Judged], works: &mut Vec<WorkNumber>) -> Result<(), AllocError>
    ensures { OnOk result (works.new.items ≡ works.old.items ++ clean_works judged.now) }
{
    for transaction in judged {
        match transaction {
            Judged::Clean(_, work) => works.push(*work)?,
            Judged::Faulty(_) => {}
        }
    }
    Ok(())
}

// The work numbers of the clean transactions of a run, in order.
fn works_of(alloc: Global, run: &[Noted]) -> Result<Vec<WorkNumber>, AllocError>
    ensures { IfOk result (λ works. works.items ≡ flat_map (λ x. clean_works x.judged) run.now) }
{
    let mut works = Vec::new(alloc);
    for noted in run {
        append_works(noted.judgements(), &mut works)?;
    }
    Ok(works)
}

// The set of some work numbers.
fn distinct_works(alloc: Global, list: Vec<WorkNumber>) -> Result<BTreeSet<WorkNumber>, AllocError>
    ensures { IfOk result (IsFromIterResult bytes_cmp list.items) }
{
    list.into_iter().collect(alloc)
}

/// The work numbers of the clean transactions of a run, ascending, each once.
pub fn ascending_works(alloc: Global, run: &[Noted]) -> Result<Vec<WorkNumber>, AllocError>
    ensures { IfOk result (λ works. works.items ≡ ascending bytes_cmp (flat_map (λ x. clean_works x.judged) run.now)) }
{
    let set = distinct_works(alloc, works_of(alloc, run)?)?;
    set.iter().copied().collect(alloc)
}

impl Noted {
    // What is noted of a transmission under its number.
    fn of(
        alloc: Global,
        number: TransmissionNumber,
        transmission: &Transmission<'_>,
        office: &Office,
    ) -> Result<Noted, AllocError>
        ensures { IfOk result (λ notes. notes ≡ notes_of office.now number transmission.now) }
    {
        let mut judgements = judge_all(alloc, transmission, office)?;
        let mut isrcs = isrcs_of_groups(alloc, transmission.groups.as_slice())?;
        // An audit notes a sender's whole line.
        judgements.shrink_to_fit();
        isrcs.shrink_to_fit();
        Ok(Noted {
            number,
            judgements,
            isrcs,
        })
    }

    /// Its number.
    pub fn number(&self) -> TransmissionNumber
        ensures { result ≡ self.now.number }
    {
        self.number
    }

    /// What is judged of its transactions.
    pub fn judgements(&self) -> &[Judged]
        ensures { result.now ≡ self.now.judged }
    {
        self.judgements.as_slice()
    }

    /// The ISRCs of the transaction at a place; none past the last.
    pub fn isrcs(&self, place: usize) -> Option<&[Isrc]>
        ensures { option_map (λ list. list.now) result ≡ slice_get self.now.isrcs place }
    {
        match self.isrcs.get(place) {
            Some(list) => Some(list.as_slice()),
            None => None,
        }
    }
}

/// Transmissions of a sender as an office notes them, one after another, and the number that they have come to, by its rank.
/// Of a body nothing is kept.
#[derive(Drop)]
pub struct Run {
    alloc: Global,
    office: Office,
    front: u32,
    notes: Vec<Noted>,
}

impl Model for Run {
    ghost use Rattle.society_arrivals.specs.Runs.{RunValue};

    ghost Value = { RunValue };

    ghost view = { λ r. record { office = r.office; reached = r.front; notes = r.notes.items } };
}

impl Run {
    /// A run of no transmission, at a number.
    pub fn new(alloc: Global, office: &Office, front: u32) -> Run
        ensures { result ≡ record { office = office.now; reached = front; notes = [] } }
    {
        Run {
            alloc,
            office: *office,
            front,
            notes: Vec::new(alloc),
        }
    }

    /// Takes a body of which it is known that it is a transmission of the sender, under its number.
    pub fn begin(
        alloc: Global,
        office: &Office,
        sender: &SenderKey,
        number: TransmissionNumber,
        body: &[u8],
    ) -> Result<Run, AllocError>
        requires right { file_fault sender.now body.now ≡ None }
        ensures { IfOk result (λ run. run ≡ record { office = office.now; reached = number; notes = notes_in office.now number body.now ∷ [] }) }
    {
        let transmission = known_transmission(alloc, body, sender)?;
        let noted = Noted::of(alloc, number, &transmission, office)?;
        let mut notes = Vec::new(alloc);
        notes.push(noted)?;
        Ok(Run {
            alloc,
            office: *office,
            front: number.value(),
            notes,
        })
    }

    /// What is noted of its transmissions.
    pub fn notes(&self) -> &[Noted]
        ensures { result.now ≡ self.now.notes }
    {
        self.notes.as_slice()
    }

    /// The number that it has come to, by its rank.
    pub fn front(&self) -> u32
        ensures { result ≡ self.now.reached }
    {
        self.front
    }

    /// Comes to the rank before the first number of a segment.
    pub fn pass(&mut self, rank: u32)
        ensures { self.new ≡ record self.old { reached = rank } }
    {
        self.front = rank;
    }
}

impl RowFold for Run {
    ghost step = { take_row };

    ghost refusal = { λ _ row fault. Blames (IsRightSent row → ⊥) fault };

    fn take(&mut self, row: &Row) -> Result<(), RowFault> {
        let row = TransmissionRow::from_row(row)?;
        let Some(number) = TransmissionNumber::from_u32(row.number) else {
            return Err(RowFault::Damaged);
        };
        let Ok(sender) = SenderKey::from_bytes(row.sender) else {
            return Err(RowFault::Damaged);
        };
        let transmission = read_body(self.alloc, row.body, &sender)?;
        let noted = Noted::of(self.alloc, number, &transmission, &self.office)?;
        self.notes.push(noted)?;
        self.front = row.number;
        Ok(())
    }
}
