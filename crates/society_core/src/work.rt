//! What is shown of a work.
ghost use Rattle.std.specs.Prelude.{◌≡◌, IfOk};
ghost use Rattle.cwr_records.specs.Blanks.{without_trailing_blanks};
ghost use Rattle.cwr_files.specs.Transaction.{iswc_of_work, title_of};
ghost use Rattle.society_core.specs.Answers.{shown_by};
ghost use Rattle.society_core.specs.Requests.{shown_of};
ghost use Rattle.works_core.specs.Recordings.{right_one};

use crate::answers::Work;
use cwr_files::Transaction;
use share_rules::{Kind, Office, weights};
use std::alloc::{AllocError, Global};
use work_ids::{Iswc, SenderKey, WorkNumber};
use works_core::{WorkVersion, isrcs};

// The title of a transaction without the blanks at its end.
fn title(alloc: Global, transaction: &Transaction<'_>) -> Result<Vec<u8>, AllocError>
    ensures { IfOk result (λ title. title.items ≡ without_trailing_blanks (title_of transaction.now)) }
{
    Vec::from_slice(alloc, transaction.title().trimmed_end())
}

// The ISWC of a transaction, where it has one that is right.
fn right_iswc(transaction: &Transaction<'_>) -> Option<Iswc>
    ensures { result ≡ right_one (iswc_of_work transaction.now) }
{
    match transaction.iswc() {
        Ok(iswc) => iswc,
        Err(_) => None,
    }
}

/// What a version of a sender's work shows, by its transaction: number, title without the blanks at its end, ISWC, ISRCs in order, and the
/// holders with their weights in the performing right (profile). Any store shows its works by it.
pub fn show(
    alloc: Global,
    office: &Office,
    sender: &SenderKey,
    number: &WorkNumber,
    version: WorkVersion,
    transaction: &Transaction<'_>,
) -> Result<Work, AllocError>
    ensures { IfOk result (λ work. shown_of work ≡ shown_by office.now sender.now number.now version transaction.now) }
{
    Ok(Work {
        number: *number,
        version,
        title: title(alloc, transaction)?,
        iswc: right_iswc(transaction),
        isrcs: isrcs(alloc, transaction)?,
        holders: weights(alloc, Kind::Performing, sender, transaction, office)?,
    })
}
