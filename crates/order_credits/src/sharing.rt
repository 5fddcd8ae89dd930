//! What an order credits by the tables, in a transaction.
ghost use Rattle.std.specs.Prelude.{◌≡◌, ◌≤◌, ◌∷◌, [], IfOk, bytes_eq, option_map};
ghost use Rattle.std.specs.List.{list_any};
ghost use Rattle.society_book.specs.Steps.{Looks};
ghost use Rattle.society_rows.specs.Between.{Within};
ghost use Rattle.order_credits.specs.Looked.{AddsPaidShare, ArePaidShares, AreOfCut, ArePlayedShares, AreSharesOf, IsPaidShare, KeepsOwners};
ghost use Rattle.order_credits.specs.Shares.{share_of_nothing, shares_wanted};

use crate::numbers::{paid_of, points_of, remainder, total_of};
use crate::owners::Owners;
use crate::parts::{parts_of, whole};
use crate::share::RecordingShare;
use crate::sought::{is_wanted, sought_of, tally_with};
use crate::versions::owner_of;
use pool_split::split;
use share_rules::Office;
use society_closings::{PoolWorks, Wanted, candidates_in, tally_of};
use society_core::{Candidate, PoolOrder};
use society_rows::RowFault;
use sqlite::{Alter, Transaction};
use std::alloc::{AllocError, Global};
use std::collections::BTreeSet;
use work_ids::Isrc;

// The candidates for recordings out of the works of an order's cut.
fn candidates_for<S: Alter>(
    alloc: Global,
    tx: &mut Transaction<'_, S>,
    office: &Office,
    order: &PoolOrder,
    isrcs: &[Isrc],
) -> Result<Vec<Candidate>, RowFault>
    ensures looks { Within S.Store tx.old tx.new Looks result
        (λ db candidates. AreOfCut office.now order.now (λ isrc. list_any (bytes_eq isrc) isrcs.now) db candidates.items) }
{
    let tally = tally_with(alloc, isrcs)?;
    let mut wanted = Wanted::new(alloc);
    wanted.add(order.cut(), isrcs)?;
    let works = PoolWorks::of(alloc, wanted.works(alloc, tx)?);
    candidates_in(alloc, order.kind(), tx, office, &tally, order, &works)
}

// The share of a recording that has a part of the amount, of so many points in all.
fn share_of<S: Alter>(
    alloc: Global,
    tx: &mut Transaction<'_, S>,
    order: &PoolOrder,
    total: u64,
    paid: &((Isrc, u64), u64),
    owners: &Owners,
    candidates: &[Candidate],
) -> Result<RecordingShare, RowFault>
    requires total { 1 ≤ total }
    requires owners { KeepsOwners owners.now.places candidates.now }
    ensures looks { Within S.Store tx.old tx.new Looks result (IsPaidShare order.now total paid.now candidates.now) }
{
    let ((isrc, points), units) = *paid;
    let owner = owner_of(tx, order, owners.owner(candidates, &isrc))?;
    let parts = parts_of(alloc, units, owner.as_ref())?;
    Ok(RecordingShare {
        isrc: Some(isrc),
        points,
        units,
        remainder: remainder(order.amount(), total, points),
        owner,
        parts,
    })
}

// Adds the share of a recording, where it is wanted.
fn add_share<S: Alter>(
    alloc: Global,
    tx: &mut Transaction<'_, S>,
    order: &PoolOrder,
    total: u64,
    paid: &((Isrc, u64), u64),
    owners: &Owners,
    candidates: &[Candidate],
    wanted: Option<&BTreeSet<Isrc>>,
    shares: &mut Vec<RecordingShare>,
) -> Result<(), RowFault>
    requires total { 1 ≤ total }
    requires owners { KeepsOwners owners.now.places candidates.now }
    ensures looks { Within S.Store tx.old tx.new Looks result
        (λ db _. AddsPaidShare order.now total (option_map (λ set. set.now) wanted.entry) candidates.now paid.now shares.old.items shares.new.items db) }
{
    if !is_wanted(wanted, &paid.0.0) {
        return Ok(());
    }
    let share = share_of(alloc, tx, order, total, paid, owners, candidates)?;
    shares.push(share)?;
    Ok(())
}

// The shares of those recordings that are wanted.
fn shares_paid<S: Alter>(
    alloc: Global,
    tx: &mut Transaction<'_, S>,
    order: &PoolOrder,
    total: u64,
    paid: &[((Isrc, u64), u64)],
    candidates: &[Candidate],
    wanted: Option<&BTreeSet<Isrc>>,
) -> Result<Vec<RecordingShare>, RowFault>
    requires { 1 ≤ total }
    ensures looks { Within S.Store tx.old tx.new Looks result
        (λ db shares. ArePaidShares order.now total (option_map (λ set. set.now) wanted.entry) candidates.now paid.now db shares.items) }
{
    let owners = Owners::among(alloc, candidates)?;
    let mut shares = Vec::new(alloc);
    for recording in paid {
        add_share(
            alloc,
            tx,
            order,
            total,
            recording,
            &owners,
            candidates,
            wanted,
            &mut shares,
        )?;
    }
    Ok(shares)
}

// The share of a pool in which nothing was played, where all recordings are wanted.
fn shares_of_nothing(
    alloc: Global,
    order: &PoolOrder,
    wanted: Option<&BTreeSet<Isrc>>,
) -> Result<Vec<RecordingShare>, AllocError>
    ensures { IfOk result (λ shares. shares.items ≡ shares_wanted (option_map (λ set. set.now) wanted.entry) (share_of_nothing order.now ∷ [])) }
{
    let mut shares = Vec::new(alloc);
    if wanted.is_none() {
        shares.push(RecordingShare {
            isrc: None,
            points: 0,
            units: order.amount(),
            remainder: 0,
            owner: None,
            parts: whole(alloc, order.amount())?,
        })?;
    }
    Ok(shares)
}

// The shares of recordings by their points, of those that are wanted; `Damaged` where the points can't be those of a pool.
fn shares_by<S: Alter>(
    alloc: Global,
    tx: &mut Transaction<'_, S>,
    office: &Office,
    order: &PoolOrder,
    played: &[(Isrc, u64)],
    wanted: Option<&BTreeSet<Isrc>>,
) -> Result<Vec<RecordingShare>, RowFault>
    ensures looks { Within S.Store tx.old tx.new Looks result
        (λ db shares. ArePlayedShares office.now order.now (option_map (λ set. set.now) wanted.entry) played.now db shares.items) }
{
    if played.is_empty() {
        return Ok(shares_of_nothing(alloc, order, wanted)?);
    }
    let points = points_of(alloc, played)?;
    let total = match total_of(&points) {
        Some(total) if total > 0 => total,
        _ => return Err(RowFault::Damaged),
    };
    let parts = split(alloc, order.amount(), &points)?;
    let paid = paid_of(alloc, played, &parts)?;
    let isrcs = sought_of(alloc, played, wanted)?;
    let candidates = candidates_for(alloc, tx, office, order, &isrcs)?;
    shares_paid(alloc, tx, order, total, &paid, &candidates, wanted)
}

/// What an order credits by the tables, recording by recording, of those that are wanted. Where the disk told the truth, an error says that
/// memory ran out, that a count has no room, that the medium may have failed, or that no book whose works the tables have can pay the order.
pub(crate) fn shares_in<S: Alter>(
    alloc: Global,
    tx: &mut Transaction<'_, S>,
    office: &Office,
    order: &PoolOrder,
    wanted: Option<&BTreeSet<Isrc>>,
) -> Result<Vec<RecordingShare>, RowFault>
    ensures looks { Within S.Store tx.old tx.new Looks result
        (λ db shares. AreSharesOf office.now order.now (option_map (λ set. set.now) wanted.entry) db shares.items) }
{
    let tally = tally_of(alloc, tx, order.returns())?;
    let played = tally.points_by_recording(alloc)?;
    shares_by(alloc, tx, office, order, &played, wanted)
}
