//! The candidates for the recordings of a pool: the works of its cut, each by the version that it has there.
ghost use Rattle.std.specs.Prelude.{◌≡◌, ◌&&◌, IfOk, OnOk, not, true};
ghost use Rattle.std.specs.BTreeSet.{contains};
ghost use Rattle.society_core.specs.Book.{IsSound, is_applied, is_one_of, is_there, numbers_to, transmissions_to};
ghost use Rattle.society_core.specs.Candidates.{AddsSender, AddsWork, AddsSent, AddsVersion, AppendsCandidates, AreFor, ListsOnce, ReachesCut};
ghost use Rattle.society_core.specs.Keys.{bytes_cmp};
ghost use Rattle.society_core.specs.Owners.{is_at, works_of_cut};
ghost use Rattle.society_core.specs.Points.{is_tallied};
ghost use Rattle.works_core.specs.Line.{line_of};
ghost use Rattle.works_core.specs.Recordings.{isrcs_of};
ghost use Rattle.works_core.specs.Versions.{work_at};

use crate::claim_list::Candidate;
use crate::order::PoolOrder;
use crate::plain_book::PlainBook;
use crate::plain_lines::{line_to, transmission_of};
use crate::points::Tally;
use crate::transmission_key::TransmissionKey;
use cwr_files::Transaction;
use pool_split::Holders;
use share_rules::{Kind, Office, weights};
use std::alloc::{AllocError, Global};
use std::collections::BTreeSet;
use work_ids::{Isrc, SenderKey, TransmissionNumber, WorkNumber};
use works_core::{SenderLine, isrcs};

/// What a pool's works are weighed by: the right that is paid, at which office, and the recordings that were played.
#[derive(Clone, Copy)]
pub struct Weighing<'a> {
    pub alloc: Global,
    pub kind: Kind,
    pub office: &'a Office,
    pub tally: &'a Tally,
}

// Whether a recording is one of a tally and was not seen before.
fn is_due(tally: &Tally, seen: &BTreeSet<Isrc>, isrc: &Isrc) -> bool
    ensures { result ≡ (is_tallied tally.now isrc.now && not (contains bytes_cmp seen.now isrc.now)) }
{
    tally.has(isrc) && !seen.contains(isrc)
}

// The recordings of a tally that a transaction names, each once, however often it names them.
fn tallied_isrcs(
    alloc: Global,
    tally: &Tally,
    transaction: &Transaction<'_>,
) -> Result<Vec<Isrc>, AllocError>
    ensures { IfOk result (λ list. ListsOnce (is_tallied tally.now) (isrcs_of transaction.now) list.items) }
{
    let named = isrcs(alloc, transaction)?;
    let mut seen = BTreeSet::new(alloc);
    let mut list = Vec::new(alloc);
    for isrc in &named {
        if is_due(tally, &seen, isrc) {
            seen.insert(*isrc)?;
            list.push(*isrc)?;
        }
    }
    Ok(list)
}

// Adds the candidates that a work makes for these recordings, each with these holders.
fn append_candidates(
    sender: &SenderKey,
    work: &WorkNumber,
    holders: &Holders,
    isrcs: &[Isrc],
    candidates: &mut Vec<Candidate>,
) -> Result<(), AllocError>
    ensures { OnOk result (AppendsCandidates sender.now work.now holders.now isrcs.now candidates.old.items candidates.new.items) }
{
    for isrc in isrcs {
        candidates.push(Candidate {
            isrc: *isrc,
            sender: *sender,
            work: *work,
            holders: holders.share()?,
        })?;
    }
    Ok(())
}

/// Adds the candidates that a work's version makes: one for each recording of a tally that it names, with this sender, this number
/// of a work, and the holders of the transaction. Its weights are worked out once, and only where it names one.
pub fn add_candidates(
    weighing: &Weighing<'_>,
    sender: &SenderKey,
    work: &WorkNumber,
    transaction: &Transaction<'_>,
    candidates: &mut Vec<Candidate>,
) -> Result<(), AllocError>
    ensures { OnOk result (AddsWork weighing.now sender.now work.now transaction.now candidates.old.items candidates.new.items) }
{
    let named = tallied_isrcs(weighing.alloc, weighing.tally, transaction)?;
    if named.is_empty() {
        return Ok(());
    }
    let list = weights(
        weighing.alloc,
        weighing.kind,
        sender,
        transaction,
        weighing.office,
    )?;
    let holders = Holders::from_vec(weighing.alloc, list)?;
    append_candidates(sender, work, &holders, &named, candidates)
}

// Whether the version that a work has at a cut is the transaction at this place of this transmission.
fn is_version_at(
    line: &SenderLine,
    cut: TransmissionNumber,
    work: &WorkNumber,
    number: TransmissionNumber,
    place: usize,
) -> bool
    ensures { result ≡ is_at number place (work_at line.now.transmissions work.now cut) }
{
    match line.work_at(work, cut) {
        None => false,
        Some(version) => version.transmission == number && version.place == place,
    }
}

// Adds the candidates of a transaction, where it is the version that its work has at the sender's cut.
fn add_transaction(
    weighing: &Weighing<'_>,
    key: &TransmissionKey,
    line: &SenderLine,
    number: TransmissionNumber,
    place: usize,
    transaction: &Transaction<'_>,
    candidates: &mut Vec<Candidate>,
) -> Result<(), AllocError>
    ensures { OnOk result (AddsVersion weighing.now line.now.transmissions key.now number place transaction.now
        candidates.old.items candidates.new.items) }
{
    let Some(work) = transaction.work_number() else {
        return Ok(());
    };
    if !is_version_at(line, key.number, &work, number, place) {
        return Ok(());
    }
    add_candidates(weighing, &key.sender, &work, transaction, candidates)
}

// Adds the candidates of a sender's transmission: of those of its transactions that are versions at the sender's cut.
fn add_versions(
    weighing: &Weighing<'_>,
    book: &PlainBook,
    key: &TransmissionKey,
    line: &SenderLine,
    number: TransmissionNumber,
    candidates: &mut Vec<Candidate>,
) -> Result<(), AllocError>
    requires sound { IsSound book.now }
    requires line { line.now.transmissions ≡ line_of weighing.now.office.now (transmissions_to book.now key.now.sender key.now.number) }
    requires within { is_one_of (numbers_to book.now key.now.sender key.now.number) number ≡ true }
    requires there { is_there book.now key.now.sender number ≡ true }
    ensures { OnOk result (AddsSent weighing.now book.now key.now number candidates.old.items candidates.new.items) }
{
    let transmission = transmission_of(weighing.alloc, book, &key.sender, number)?;
    let Some(verdicts) = line.verdicts(number) else {
        unreachable!();
    };
    for place in 0..verdicts.len() {
        let Some(transaction) = transmission.transaction(place) else {
            unreachable!();
        };
        add_transaction(weighing, key, line, number, place, transaction, candidates)?;
    }
    Ok(())
}

// Adds the candidates of a sender: its works as they are at its cut.
fn add_sender(
    weighing: &Weighing<'_>,
    book: &PlainBook,
    key: &TransmissionKey,
    candidates: &mut Vec<Candidate>,
) -> Result<(), AllocError>
    requires sound { IsSound book.now }
    requires applied { is_applied book.now key.now ≡ true }
    ensures { OnOk result (AddsSender weighing.now book.now key.now candidates.old.items candidates.new.items) }
{
    let line = line_to(
        weighing.alloc,
        weighing.office,
        book,
        &key.sender,
        key.number.value(),
    )?;
    let numbers = book.numbers_to(weighing.alloc, &key.sender, key.number.value())?;
    for number in &numbers {
        add_versions(weighing, book, key, &line, *number, candidates)?;
    }
    Ok(())
}

/// The candidates for the recordings of a tally: of all works of the cut of an order those that name one.
pub(crate) fn candidates_of(
    alloc: Global,
    kind: Kind,
    office: &Office,
    tally: &Tally,
    book: &PlainBook,
    order: &PoolOrder,
) -> Result<Vec<Candidate>, AllocError>
    requires sound { IsSound book.now }
    requires reached { ReachesCut book.now order.now }
    ensures { IfOk result (λ list. AreFor kind office.now tally.now (works_of_cut office.now book.now order.now) list.items) }
{
    let weighing = Weighing {
        alloc,
        kind,
        office,
        tally,
    };
    let mut candidates = Vec::new(alloc);
    for key in order.cut() {
        add_sender(&weighing, book, key, &mut candidates)?;
    }
    Ok(candidates)
}
