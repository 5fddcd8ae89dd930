//! A work as its version at the front shows it.
ghost use Rattle.std.specs.Prelude.{◌≡◌, [], List, ℕ, Option, IfErr, IfOk, option_map};
ghost use Rattle.society_core.specs.Answers.{shown_in, shown_version};
ghost use Rattle.society_core.specs.Book.{front, version_in};
ghost use Rattle.society_core.specs.Requests.{shown_of};
ghost use Rattle.society_rows.specs.Questions.{Asks};
ghost use Rattle.society_book.specs.Errors.{Blames};
ghost use Rattle.society_book.specs.Readable.{IsVersionRow};
ghost use Rattle.society_book.specs.Shown.{ByBook, ByOwnBook, ShowBody, ShowVersion, version_shown};
ghost use Rattle.works_core.specs.declared.version.WorkVersion.{WorkVersion as Version};
ghost use Rattle.society_rows.specs.Between.{between};
ghost use Rattle.society_book.specs.AnswersShown.{shown_of_kept};

use crate::bodies::transmission_of;
use share_rules::Office;
use society_core::{Work, show};
use society_rows::{Idle, Question, RowFault, VersionRow, ask};
use sqlite::{Alter, Row};
use std::alloc::Global;
use work_ids::{SenderKey, TransmissionNumber, WorkNumber};
use works_core::WorkVersion;

/// The version that a row is; `Damaged` where it is none, and only there.
pub fn version_of(row: &Row) -> Result<WorkVersion, RowFault>
    ensures version { IfOk result (λ version. version ≡ version_shown row.now) }
    ensures blames { IfErr result (Blames (IsVersionRow row.now → ⊥)) }
{
    let row = VersionRow::from_row(row)?;
    let Some(transmission) = TransmissionNumber::from_u32(row.number) else {
        return Err(RowFault::Damaged);
    };
    let (Ok(ordinal), Ok(revision)) = (u64::try_from(row.ordinal), u64::try_from(row.revision))
    else {
        return Err(RowFault::Damaged);
    };
    Ok(WorkVersion {
        transmission,
        place: row.place as usize,
        ordinal,
        revision,
    })
}

/// The last version that the rows of a work show, none where there is no row; `Damaged` where they are more than one.
pub fn last_version(rows: &[Row]) -> Result<Option<WorkVersion>, RowFault>
    ensures { (v : Option Version) → ShowVersion v rows.now → IfOk result (λ version. version ≡ v) }
{
    match rows {
        [] => Ok(None),
        [row] => {
            let version = version_of(row)?;
            Ok(Some(version))
        }
        _ => Err(RowFault::Damaged),
    }
}

// The version of a sender's work at the sender's front.
fn version_at_front<S: Alter>(
    conn: &mut Idle<S>,
    sender: &SenderKey,
    work: &WorkNumber,
) -> Result<Option<WorkVersion>, RowFault>
    ensures asked { between S.Store conn.old conn.new Asks result (ByBook (λ office book version. version ≡ version_in office book sender.now work.now (front book sender.now))) }
{
    let rows = ask(
        conn,
        Question::LastVersion(sender.as_bytes(), work.as_bytes()),
    )?;
    last_version(rows.as_slice())
}

// What a version of a work shows, by the rows of its transmission; `Damaged` where these are not one row, or its body is no
// transmission of the sender.
fn work_in(
    alloc: Global,
    office: &Office,
    sender: &SenderKey,
    work: &WorkNumber,
    version: WorkVersion,
    rows: &[Row],
) -> Result<Option<Work>, RowFault>
    ensures { (kept : Option (List ℕ)) → ShowBody kept rows.now → IfOk result (λ shown. option_map shown_of shown ≡ shown_of_kept office.now sender.now work.now version kept) }
{
    let transmission = transmission_of(alloc, rows, sender)?;
    match transmission.transaction(version.place) {
        None => Ok(None),
        Some(transaction) => {
            let shown = show(alloc, office, sender, work, version, transaction)?;
            Ok(Some(shown))
        }
    }
}

// What a version of a sender's work shows.
fn work_of_version<S: Alter>(
    alloc: Global,
    conn: &mut Idle<S>,
    office: &Office,
    sender: &SenderKey,
    work: &WorkNumber,
    version: WorkVersion,
) -> Result<Option<Work>, RowFault>
    ensures asked { between S.Store conn.old conn.new Asks result (ByBook (λ _ book shown. option_map shown_of shown ≡ shown_version office.now book sender.now work.now version)) }
{
    let rows = ask(
        conn,
        Question::Transmission(sender.as_bytes(), version.transmission.value()),
    )?;
    work_in(alloc, office, sender, work, version, rows.as_slice())
}

/// A sender's work at this office as its version at the sender's front shows it, none where it has none.
pub(crate) fn work_of<S: Alter>(
    alloc: Global,
    conn: &mut Idle<S>,
    office: &Office,
    sender: &SenderKey,
    work: &WorkNumber,
) -> Result<Option<Work>, RowFault>
    ensures asked { between S.Store conn.old conn.new Asks result (ByOwnBook office.now (λ book shown. option_map shown_of shown ≡ shown_in office.now book sender.now work.now)) }
{
    let Some(version) = version_at_front(conn, sender, work)? else {
        return Ok(None);
    };
    work_of_version(alloc, conn, office, sender, work, version)
}
