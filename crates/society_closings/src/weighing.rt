//! The versions of a transmission's works as pools take them, weighed once for all pools.
ghost use Rattle.std.specs.Prelude.{◌≡◌, ◌+◌, ◌++◌, ◌∷◌, [], List, ℕ, Option, IfErr, IfOk, OnOk, unwrap_or};
ghost use Rattle.cwr_files.specs.Contents.{transactions_of, transmission_in};
ghost use Rattle.society_book.specs.Errors.{Blames};
ghost use Rattle.society_book.specs.Readable.{ShowTransmission};
ghost use Rattle.society_book.specs.Shown.{ShowBody};
ghost use Rattle.society_core.specs.Candidates.{claimants_among};
ghost use Rattle.society_closings.specs.Weighing.{WeighsBy, claimants_by, claimants_chosen};

use crate::chosen::Chosen;
use cwr_files::{Transaction, Transmission};
use society_book::transmission_of;
use society_core::{Candidate, Weighing, add_candidates};
use society_rows::RowFault;
use sqlite::Row;
use std::alloc::AllocError;
use work_ids::{SenderKey, TransmissionNumber, WorkNumber};

/// A version of a work: where its transaction stands in its transmission, the work's number, and the candidates that it makes.
#[derive(Drop)]
pub struct WeighedVersion {
    place: usize,
    work: WorkNumber,
    candidates: Vec<Candidate>,
}

// Weighs a transaction at its place, where it has a work number and names a recording of the tally.
fn weigh_transaction(
    weighing: &Weighing<'_>,
    sender: &SenderKey,
    place: usize,
    transaction: &Transaction<'_>,
    versions: &mut Vec<WeighedVersion>,
) -> Result<(), AllocError>
    ensures { OnOk result (WeighsBy weighing.now sender.now place (transaction.now ∷ []) versions.old.items versions.new.items) }
{
    let Some(work) = transaction.work_number() else {
        return Ok(());
    };
    let mut candidates = Vec::with_capacity(weighing.alloc, 1)?;
    add_candidates(weighing, sender, &work, transaction, &mut candidates)?;
    if candidates.is_empty() {
        return Ok(());
    }
    versions.push(WeighedVersion {
        place,
        work,
        candidates,
    })?;
    Ok(())
}

/// The place behind so many; `Overflow` where it has no room.
pub fn place_after(place: usize, count: usize) -> Result<usize, RowFault>
    ensures after { IfOk result (λ after. after ≡ place + count) }
    ensures blames { IfErr result (Blames ⊥) }
{
    match place.checked_add(count) {
        Some(after) => Ok(after),
        None => Err(RowFault::Overflow),
    }
}

// Weighs the transactions of a group, which begin at a place.
fn weigh_group(
    weighing: &Weighing<'_>,
    sender: &SenderKey,
    first: usize,
    transactions: &[Transaction<'_>],
    versions: &mut Vec<WeighedVersion>,
) -> Result<(), RowFault>
    ensures weighs { OnOk result (WeighsBy weighing.now sender.now first transactions.now versions.old.items versions.new.items) }
    ensures blames { IfErr result (Blames ⊥) }
{
    for (index, transaction) in transactions.iter().enumerate() {
        let place = place_after(first, index)?;
        weigh_transaction(weighing, sender, place, transaction, versions)?;
    }
    Ok(())
}

// Weighs the transactions of a transmission.
fn weigh_groups(
    weighing: &Weighing<'_>,
    sender: &SenderKey,
    transmission: &Transmission<'_>,
) -> Result<Vec<WeighedVersion>, RowFault>
    ensures weighs { IfOk result (λ versions. WeighsBy weighing.now sender.now 0 (transactions_of transmission.now) [] versions.items) }
    ensures blames { IfErr result (Blames ⊥) }
{
    let mut versions = Vec::new(weighing.alloc);
    let mut place: usize = 0;
    for group in transmission.groups.as_slice() {
        let transactions = group.transactions.as_slice();
        weigh_group(weighing, sender, place, transactions, &mut versions)?;
        place = place_after(place, transactions.len())?;
    }
    Ok(versions)
}

/// The versions of the transmission that rows show, weighed for the recordings of a tally; `Damaged` where they are not one row, or its body
/// is no transmission of the sender.
pub(crate) fn weigh_shown(
    weighing: &Weighing<'_>,
    sender: &SenderKey,
    rows: &[Row],
) -> Result<Vec<WeighedVersion>, RowFault>
    ensures weighs { (kept : Option (List ℕ)) → ShowBody kept rows.now → IfOk result (λ versions. WeighsBy weighing.now sender.now 0 (transactions_of (transmission_in (unwrap_or kept []))) [] versions.items) }
    ensures blames { IfErr result (Blames (ShowTransmission sender.now rows.now → ⊥)) }
{
    let transmission = transmission_of(weighing.alloc, rows, sender)?;
    weigh_groups(weighing, sender, &transmission)
}

// A candidate once more.
fn copy_of(candidate: &Candidate) -> Result<Candidate, AllocError>
    ensures { IfOk result (λ copy. copy ≡ candidate.now) }
{
    Ok(Candidate {
        isrc: candidate.isrc,
        sender: candidate.sender,
        work: candidate.work,
        holders: candidate.holders.share()?,
    })
}

// Appends these candidates once more.
fn append_copies(some: &[Candidate], candidates: &mut Vec<Candidate>) -> Result<(), AllocError>
    ensures { OnOk result (candidates.new.items ≡ candidates.old.items ++ some.now) }
{
    for candidate in some {
        candidates.push(copy_of(candidate)?)?;
    }
    Ok(())
}

// Adds the candidates of a version, where it is the one that is chosen of its work.
fn add_version(
    chosen: &Chosen,
    number: TransmissionNumber,
    version: &WeighedVersion,
    candidates: &mut Vec<Candidate>,
) -> Result<(), AllocError>
    ensures { OnOk result ((isrc : List ℕ) → claimants_among candidates.new.items isrc ≡ claimants_among candidates.old.items isrc ++ claimants_by chosen.now number isrc version.now) }
{
    if !chosen.is_at(&version.work, number, version.place) {
        return Ok(());
    }
    append_copies(version.candidates.as_slice(), candidates)
}

/// Adds the candidates of those of a transmission's versions that are chosen.
pub(crate) fn add_weighed(
    chosen: &Chosen,
    number: TransmissionNumber,
    versions: &[WeighedVersion],
    candidates: &mut Vec<Candidate>,
) -> Result<(), AllocError>
    ensures { OnOk result ((isrc : List ℕ) → claimants_among candidates.new.items isrc ≡ claimants_among candidates.old.items isrc ++ claimants_chosen chosen.now number isrc versions.now) }
{
    for version in versions {
        add_version(chosen, number, version, candidates)?;
    }
    Ok(())
}
