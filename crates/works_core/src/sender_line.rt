//! One sender's line.
ghost use Rattle.std.specs.Prelude.{◌≡◌, ◌<◌, ◌+◌, ◌≤◌, ◌++◌, ◌∷◌, [], map, IfOk, OnOk, OnErr, length, flat_map, List, vec_len, vec_capacity};
ghost use Rattle.works_core.specs.Line.{judged, judged_in};
ghost use Rattle.works_core.specs.Numbered.{last_number};
ghost use Rattle.works_core.specs.Tracks.{HasRoomFor, IsTracked, Tracks};
ghost use Rattle.works_core.specs.Verdicts.{verdicts_from};
ghost use Rattle.works_core.specs.Versions.{judged_of, placed_behind, Placed, work_at};
ghost use Rattle.work_ids.specs.Segments.{greatest_rank};

use crate::judged::Judged;
use crate::verdict::Verdict;
use crate::version::WorkVersion;
use crate::works::{TransactionPlace, Works};
use cwr_files::{Group, Transaction, Transmission};
use share_rules::{Office, judge};
use std::alloc::{AllocError, Global};
use std::marker::Model;
use work_ids::{TransmissionNumber, WorkNumber};

/// What a line keeps of a transmission: its number, what is judged of its transactions, and their verdicts.
#[derive(Drop)]
pub struct KeptTransmission {
    pub number: TransmissionNumber,
    pub judged: Vec<Judged>,
    pub verdicts: Vec<Verdict>,
}

/// One sender's transmissions in the order of their numbers: its transactions as an office judges them, with their verdicts and
/// the versions of its works.
#[derive(Drop)]
pub struct SenderLine {
    office: Office,
    kept: Vec<KeptTransmission>,
    works: Works,
}

impl Model for SenderLine {
    ghost use Rattle.works_core.specs.LineValue.{SenderLineValue};
    ghost use Rattle.works_core.specs.Kept.{kept_line, IsKeptLine};

    ghost Value = { SenderLineValue };

    ghost view = { λ l. record { office = l.office; transmissions = kept_line l.kept.items } };

    ghost invariant = { λ l. IsKeptLine l.kept.items l.works };
}

// What an office judges of a transaction.
fn judge_transaction(transaction: &Transaction<'_>, office: &Office) -> Judged
    ensures { result ≡ judged office.now transaction.now }
{
    match judge(transaction, office) {
        Some(fault) => Judged::Faulty(fault),
        None => match transaction.work_number() {
            Some(work) => Judged::Clean(transaction.kind, work),
            None => unreachable!(),
        },
    }
}

// Appends what an office judges of the transactions of a group.
fn append_judged(
    transactions: &[Transaction<'_>],
    office: &Office,
    list: &mut Vec<Judged>,
) -> Result<(), AllocError>
    ensures { OnOk result (list.new.items ≡ list.old.items ++ map (judged office.now) transactions.now) }
{
    for transaction in transactions {
        list.push(judge_transaction(transaction, office))?;
    }
    Ok(())
}

// What an office judges of the transactions of all groups, in the order of the file.
fn judged_groups(
    alloc: Global,
    groups: &[Group<'_>],
    office: &Office,
) -> Result<Vec<Judged>, AllocError>
    ensures { IfOk result (λ list. list.items ≡ map (judged office.now) (flat_map (λ g. g.transactions) groups.now)) }
{
    let mut list = Vec::new(alloc);
    for group in groups {
        append_judged(group.transactions.as_slice(), office, &mut list)?;
    }
    Ok(list)
}

/// What an office judges of the transactions of a transmission, in the order of the file.
pub fn judge_all(
    alloc: Global,
    transmission: &Transmission<'_>,
    office: &Office,
) -> Result<Vec<Judged>, AllocError>
    ensures { IfOk result (λ list. list.items ≡ judged_in office.now transmission.now) }
{
    judged_groups(alloc, transmission.groups.as_slice(), office)
}

// Appends the verdicts of a transmission's transactions, which are taken into the works.
fn settle_all(
    works: &mut Works,
    transmission: TransmissionNumber,
    transactions: &[Judged],
    verdicts: &mut Vec<Verdict>,
)
    requires tracked { IsTracked works.old }
    requires room { HasRoomFor transactions.now works.old }
    requires verdict_room { vec_len verdicts.old + length transactions.now ≤ vec_capacity verdicts.old }
    ensures verdicts { (past : List Placed) → Tracks works.old past → verdicts.new.items ≡ verdicts.old.items ++ verdicts_from (judged_of past) transactions.now }
    ensures tracks { (past : List Placed) → Tracks works.old past → Tracks works.new (placed_behind past transmission 0 transactions.now) }
{
    for (place, judged) in transactions.iter().enumerate() {
        let here = TransactionPlace {
            transmission,
            place,
        };
        verdicts.push(works.settle(here, judged)).unwrap();
    }
}

impl SenderLine {
    ghost use Rattle.works_core.specs.Line.{Shows};

    /// The line of a sender of whom nothing has come.
    pub fn new(alloc: Global, office: &Office) -> SenderLine
        ensures office { result.office ≡ office.now }
        ensures empty { result.transmissions ≡ [] }
    {
        SenderLine {
            office: *office,
            kept: Vec::new(alloc),
            works: Works::new(alloc),
        }
    }

    /// Applies a transmission under its number, which is above those that the line has, at a cost that its own transactions
    /// make; for want of memory (`AllocError`) the line is as it was.
    pub fn apply(
        &mut self,
        number: TransmissionNumber,
        transmission: &Transmission<'_>,
    ) -> Result<(), AllocError>
        requires above { last_number 0 self.old.transmissions < number }
        ensures office { self.new.office ≡ self.old.office }
        ensures applied { OnOk result (self.new.transmissions ≡ self.old.transmissions ++ record { number = number; judged = judged_in self.old.office transmission.now } ∷ []) }
        ensures err { OnErr result (self.new ≡ self.old) }
    {
        let alloc = *self.kept.allocator();
        let judged = judge_all(alloc, transmission, &self.office)?;
        let mut verdicts = Vec::with_capacity(alloc, judged.len())?;
        self.works.reserve(judged.as_slice())?;
        self.kept.reserve(1)?;
        settle_all(&mut self.works, number, judged.as_slice(), &mut verdicts);
        let kept = KeptTransmission {
            number,
            judged,
            verdicts,
        };
        self.kept.push(kept).unwrap();
        Ok(())
    }

    /// The last number of the line, as a rank; 0 where no transmission is applied.
    pub fn front(&self) -> u32
        ensures front { result ≡ last_number 0 self.now.transmissions }
        ensures limit { result ≤ greatest_rank }
    {
        match self.kept.last() {
            Some(last) => last.number.value(),
            None => 0,
        }
    }

    /// The verdicts of the transactions of the transmission with a number, in the order of the file; none where the line has none
    /// under it.
    pub fn verdicts(&self, number: TransmissionNumber) -> Option<&[Verdict]>
        ensures { Shows self.now.transmissions number result }
    {
        for transmission in self.kept.as_slice() {
            if transmission.number == number {
                return Some(transmission.verdicts.as_slice());
            }
        }
        None
    }

    /// The version of a work at a cut: its last accepted transaction in the transmissions up to that number; a cut above the
    /// last number is read as the last number (profile).
    pub fn work_at(&self, work: &WorkNumber, cut: TransmissionNumber) -> Option<WorkVersion>
        ensures { result ≡ work_at self.now.transmissions work.now cut }
    {
        let works = &self.works;
        let mut index = works.last_index(work);
        while let Some(at) = index {
            let linked = &works.versions[at];
            let version = linked.version;
            if version.transmission.value() <= cut.value() {
                return Some(version);
            }
            index = linked.before;
        }
        None
    }
}
