//! The faults of many records whose parties are missing, found block by block.
ghost use Rattle.std.specs.Prelude.{◌≡◌, ◌≤◌, ◌||◌, [], length};
ghost use Rattle.std.specs.List.{list_any};
ghost use Rattle.share_rules.specs.Fault.{has_row_without_party, is_row_without_party, names_no_publisher};
ghost use Rattle.share_rules.specs.Parties.{row_in};
ghost use Rattle.share_rules.specs.Blocks.{AreFound, is_link, rows_from};

use crate::found_parties::{is_found, mark, mark_all};
use crate::party::Side;
use crate::party_keys::{BLOCK, PartyKeys};
use crate::territory_row::TerritoryRow;
use cwr_records::Record;

// Whether a record is a territory row that has no party of its side with its number before it.
fn is_row_without_party(
    keys: &PartyKeys,
    found: &[bool],
    record: &Record<'_>,
    before: &[Record<'_>],
) -> bool
    requires room { length found.now ≡ BLOCK }
    requires found { AreFound keys.now.keys found.now before.now }
    ensures { result ≡ is_row_without_party before.now (row_in «record».now) }
{
    match TerritoryRow::of(record) {
        Some(row) => !is_found(keys, found, row.side, &row.number, before),
        None => false,
    }
}

// Whether a territory row among the records from one on to another has no party of its side with its number before it.
fn block_has_row_without_party(records: &[Record<'_>], start: usize, end: usize) -> bool
    requires order { start ≤ end }
    requires within { end ≤ length records.now }
    ensures { rows_from records.now start ≡ (result || rows_from records.now end) }
{
    let keys = PartyKeys::of(&records[start..end]);
    let mut found = [false; BLOCK];
    mark_all(&keys, &mut found, &records[..start]);
    for index in start..end {
        if is_row_without_party(&keys, &found, &records[index], &records[..index]) {
            return true;
        }
        mark(&keys, &mut found, &records[index]);
    }
    false
}

/// Whether a territory row has no party of its side with its number before it (profile).
pub(crate) fn many_have_row_without_party(records: &[Record<'_>]) -> bool
    ensures { result ≡ has_row_without_party [] records.now }
{
    let mut start = 0;
    while start < records.len() {
        let end = records.len().min(start.saturating_add(BLOCK));
        if block_has_row_without_party(records, start, end) {
            return true;
        }
        start = end;
    }
    false
}

// Whether a record names a publisher's number that is not blank and that no publisher among the records has.
fn names_no_publisher(
    keys: &PartyKeys,
    found: &[bool],
    record: &Record<'_>,
    records: &[Record<'_>],
) -> bool
    requires room { length found.now ≡ BLOCK }
    requires found { AreFound keys.now.keys found.now records.now }
    ensures { result ≡ names_no_publisher records.now «record».now }
{
    match record {
        Record::PublisherForWriter(link) => {
            !link.publisher_party.field().is_blank()
                && !is_found(keys, found, Side::Publisher, &link.publisher_party, records)
        }
        _ => false,
    }
}

// Whether a record links a writer to a publisher.
fn is_link(record: &Record<'_>) -> bool
    ensures { result ≡ is_link «record».now }
{
    matches!(record, Record::PublisherForWriter(_))
}

// Whether one of the records of a block links a writer to a publisher.
fn has_link(block: &[Record<'_>]) -> bool
    ensures { result ≡ list_any is_link block.now }
{
    block.iter().any(|record| is_link(record))
}

// Whether one of the records of a block names no publisher among all of them: only a link does.
fn block_has_no_publisher(records: &[Record<'_>], block: &[Record<'_>]) -> bool
    ensures { result ≡ list_any (names_no_publisher records.now) block.now }
{
    if !has_link(block) {
        return false;
    }
    let keys = PartyKeys::of(block);
    let mut found = [false; BLOCK];
    mark_all(&keys, &mut found, records);
    for record in block {
        if names_no_publisher(&keys, &found, record, records) {
            return true;
        }
    }
    false
}

/// Whether one of the records names no publisher among them (profile).
pub(crate) fn many_have_no_publisher(records: &[Record<'_>]) -> bool
    ensures { result ≡ list_any (names_no_publisher records.now) records.now }
{
    let mut start = 0;
    while start < records.len() {
        let end = records.len().min(start.saturating_add(BLOCK));
        if block_has_no_publisher(records, &records[start..end]) {
            return true;
        }
        start = end;
    }
    false
}
