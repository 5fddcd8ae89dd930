//! The bodies of transmissions and of returns, as rows show them.
ghost use Rattle.std.specs.Prelude.{◌≡◌, List, ℕ, None, Option, Some, IfErr, IfOk};
ghost use Rattle.cwr_files.specs.Contents.{transmission_in};
ghost use Rattle.cwr_files.specs.FileFault.{file_fault};
ghost use Rattle.society_core.specs.Answers.{known_by};
ghost use Rattle.society_book.specs.Errors.{Blames};
ghost use Rattle.society_book.specs.Items.{transmission_kept};
ghost use Rattle.society_book.specs.Readable.{ShowTransmission};
ghost use Rattle.society_book.specs.Shown.{ShowBody};

use cwr_files::{ReadFault, Transmission, read_transmission};
use society_core::Known;
use society_rows::{RowFault, TransmissionRow};
use sqlite::Row;
use std::alloc::Global;
use work_ids::SenderKey;

/// Whether a body is the one that is kept, or another.
pub(crate) fn compare_body(kept: &[u8], body: &[u8]) -> Known
    ensures { result ≡ known_by body.now (Some kept.now) }
{
    if kept == body {
        Known::Same
    } else {
        Known::Other
    }
}

/// The transmission that a body is; `Damaged` where it is none of the sender, and only there.
pub fn read_body<'a>(
    alloc: Global,
    body: &'a [u8],
    sender: &SenderKey,
) -> Result<Transmission<'a>, RowFault>
    ensures reads { IfOk result (λ transmission. transmission ≡ transmission_in body.now) }
    ensures blames { IfErr result (Blames (file_fault sender.now body.now ≡ None → ⊥)) }
{
    match read_transmission(alloc, body, sender) {
        Ok(transmission) => Ok(transmission),
        Err(ReadFault::Memory) => Err(RowFault::Memory),
        Err(ReadFault::File(_)) => Err(RowFault::Damaged),
    }
}

/// The transmission that rows show; `Damaged` where they are not one row, or its body is none of the sender, and only there.
pub fn transmission_of<'a>(
    alloc: Global,
    rows: &'a [Row],
    sender: &SenderKey,
) -> Result<Transmission<'a>, RowFault>
    ensures reads { (kept : Option (List ℕ)) → ShowBody kept rows.now → IfOk result (λ transmission. transmission ≡ transmission_kept kept) }
    ensures blames { IfErr result (Blames (ShowTransmission sender.now rows.now → ⊥)) }
{
    let [row] = rows else {
        return Err(RowFault::Damaged);
    };
    let row = TransmissionRow::from_row(row)?;
    read_body(alloc, row.body, sender)
}
