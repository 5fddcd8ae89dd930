//! The recordings that a transaction names.
ghost use Rattle.std.specs.Prelude.{◌≡◌, IfOk};
ghost use Rattle.works_core.specs.Recordings.{isrcs_of};

use cwr_files::Transaction;
use cwr_records::Record;
use std::alloc::{AllocError, Global};
use work_ids::Isrc;

/// The ISRCs of a transaction's REC records in order, repeats kept, blank and wrong ones left out (ISO 3901); an error
/// where memory runs out.
pub fn isrcs(alloc: Global, transaction: &Transaction<'_>) -> Result<Vec<Isrc>, AllocError>
    ensures { IfOk result (λ list. list.items ≡ isrcs_of transaction.now) }
{
    let mut list = Vec::new(alloc);
    for record in transaction.records.as_slice() {
        if let Record::Recording(recording) = record {
            if let Ok(Some(isrc)) = recording.isrc() {
                list.push(isrc)?;
            }
        }
    }
    Ok(list)
}
