//! The version that owns a recording at the cut of an order.
ghost use Rattle.std.specs.Prelude.{◌≡◌, option_map};
ghost use Rattle.society_book.specs.Steps.{Looks};
ghost use Rattle.society_rows.specs.Between.{Within};
ghost use Rattle.order_credits.specs.Looked.{HasRevisionAt, IsCutOfSender, OwnsBy};

use crate::share::OwnedVersion;
use society_closings::version_at;
use society_core::{Candidate, PoolOrder, TransmissionKey};
use society_rows::RowFault;
use sqlite::{Alter, Transaction};
use work_ids::SenderKey;

// What the cut has of a sender.
fn key_of<'a>(cut: &'a [TransmissionKey], sender: &SenderKey) -> Option<&'a TransmissionKey>
    ensures { IsCutOfSender cut.entry.now sender.now (option_map (λ key. key.now) result) }
{
    cut.iter().find(|key| key.sender == *sender)
}

// The revision that a work has at the cut of an order.
fn revision_of<S: Alter>(
    tx: &mut Transaction<'_, S>,
    order: &PoolOrder,
    candidate: &Candidate,
) -> Result<u64, RowFault>
    ensures looks { Within S.Store tx.old tx.new Looks result (HasRevisionAt order.now candidate.now.sender candidate.now.work) }
{
    let Some(key) = key_of(order.cut(), &candidate.sender) else {
        return Ok(0);
    };
    match version_at(tx, key, &candidate.work)? {
        Some(version) => Ok(version.revision),
        None => Ok(0),
    }
}

/// The version that owns a recording at the cut of an order, by the only candidate for it; none where there is none.
pub(crate) fn owner_of<S: Alter>(
    tx: &mut Transaction<'_, S>,
    order: &PoolOrder,
    candidate: Option<&Candidate>,
) -> Result<Option<OwnedVersion>, RowFault>
    ensures looks { Within S.Store tx.old tx.new Looks result (OwnsBy order.now (option_map (λ c. c.now) candidate.entry)) }
{
    let Some(candidate) = candidate else {
        return Ok(None);
    };
    let revision = revision_of(tx, order, candidate)?;
    Ok(Some(OwnedVersion {
        sender: candidate.sender,
        work: candidate.work,
        revision,
        holders: candidate.holders.share()?,
    }))
}
