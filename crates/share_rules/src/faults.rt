//! The faults that a transaction may have, but for its sums.
ghost use Rattle.std.specs.Prelude.{◌≡◌, [], not, is_ok};
ghost use Rattle.std.specs.List.{list_any};
ghost use Rattle.share_rules.specs.Fault.{has_blank_title, has_no_work_number, has_row_without_party, has_wrong_ipi, has_wrong_isrc, has_wrong_iswc, has_wrong_number, has_wrong_share, names_no_publisher};
ghost use Rattle.work_ids.specs.PartyNumber.{party_number_of};

use crate::many_faults::{many_have_no_publisher, many_have_row_without_party};
use crate::party::{InterestedParty, Side};
use crate::party_keys::FEW;
use crate::party_search::Sought;
use crate::territory_row::TerritoryRow;
use cwr_files::Transaction;
use cwr_records::{Fixed, Record};
use work_ids::{IpiName, PartyNumber};

/// Whether the title is blank (profile).
pub(crate) fn has_blank_title(transaction: &Transaction<'_>) -> bool
    ensures { result ≡ has_blank_title transaction.now }
{
    transaction.title().is_blank()
}

/// Whether the work number is blank or not printable ASCII (profile).
pub(crate) fn has_no_work_number(transaction: &Transaction<'_>) -> bool
    ensures { result ≡ has_no_work_number transaction.now }
{
    transaction.work_number().is_none()
}

/// Whether the ISWC is neither blank nor right (profile).
pub(crate) fn has_wrong_iswc(transaction: &Transaction<'_>) -> bool
    ensures { result ≡ has_wrong_iswc transaction.now }
{
    transaction.iswc().is_err()
}

// Whether a share of a party or of a territory row is neither blank nor five digits, or is over 10000 (profile).
fn has_wrong_share(record: &Record<'_>) -> bool
    ensures { result ≡ has_wrong_share «record».now }
{
    if let Some(party) = InterestedParty::of(record) {
        return party.shares.are_wrong();
    }
    match TerritoryRow::of(record) {
        Some(row) => row.shares.are_wrong(),
        None => false,
    }
}

/// Whether a share in one of the records is wrong (profile).
pub(crate) fn have_wrong_share(records: &[Record<'_>]) -> bool
    ensures { result ≡ list_any has_wrong_share records.now }
{
    records.iter().any(|record| has_wrong_share(record))
}

// The same as below of a few records, looked through for each row.
fn few_have_row_without_party(records: &[Record<'_>]) -> bool
    ensures { result ≡ has_row_without_party [] records.now }
{
    for (index, record) in records.iter().enumerate() {
        if let Some(row) = TerritoryRow::of(record) {
            if !Sought::new(row.side, &row.number).is_among(&records[..index]) {
                return true;
            }
        }
    }
    false
}

/// Whether a territory row has no party of its side with its number before it (profile).
pub(crate) fn has_row_without_party(records: &[Record<'_>]) -> bool
    ensures { result ≡ has_row_without_party [] records.now }
{
    if records.len() <= FEW {
        few_have_row_without_party(records)
    } else {
        many_have_row_without_party(records)
    }
}

// Whether a record names a publisher's number that is not blank and that no publisher among the records has (profile).
fn names_no_publisher(records: &[Record<'_>], record: &Record<'_>) -> bool
    ensures { result ≡ names_no_publisher records.now «record».now }
{
    match record {
        Record::PublisherForWriter(link) => {
            !link.publisher_party.field().is_blank()
                && !Sought::new(Side::Publisher, &link.publisher_party).is_among(records)
        }
        _ => false,
    }
}

/// Whether one of the records names no publisher among them (profile).
pub(crate) fn have_no_publisher(records: &[Record<'_>]) -> bool
    ensures { result ≡ list_any (names_no_publisher records.now) records.now }
{
    if records.len() <= FEW {
        records
            .iter()
            .any(|record| names_no_publisher(records, record))
    } else {
        many_have_no_publisher(records)
    }
}

// Whether the IPI name number of a party is not all digits (profile).
fn has_wrong_ipi(record: &Record<'_>) -> bool
    ensures { result ≡ has_wrong_ipi «record».now }
{
    match InterestedParty::of(record) {
        Some(party) => IpiName::from_field(&party.ipi_name.to_bytes()).is_err(),
        None => false,
    }
}

/// Whether an IPI name number in one of the records is wrong (profile).
pub(crate) fn have_wrong_ipi(records: &[Record<'_>]) -> bool
    ensures { result ≡ list_any has_wrong_ipi records.now }
{
    records.iter().any(|record| has_wrong_ipi(record))
}

// Whether the ISRC of a recording is neither blank nor right (profile).
fn has_wrong_isrc(record: &Record<'_>) -> bool
    ensures { result ≡ has_wrong_isrc «record».now }
{
    match record {
        Record::Recording(recording) => recording.isrc().is_err(),
        _ => false,
    }
}

/// Whether an ISRC in one of the records is wrong (profile).
pub(crate) fn have_wrong_isrc(records: &[Record<'_>]) -> bool
    ensures { result ≡ list_any has_wrong_isrc records.now }
{
    records.iter().any(|record| has_wrong_isrc(record))
}

// Whether the number of a party is not printable ASCII (profile).
fn is_wrong_number(number: &Fixed<'_, 9>) -> bool
    ensures { result ≡ not (is_ok (party_number_of number.now)) }
{
    PartyNumber::from_field(&number.to_bytes()).is_err()
}

// Whether a number of a party in a record is not printable ASCII (profile).
fn has_wrong_number(record: &Record<'_>) -> bool
    ensures { result ≡ has_wrong_number «record».now }
{
    match record {
        Record::Publisher(publisher) => is_wrong_number(&publisher.party),
        Record::PublisherTerritory(row) => is_wrong_number(&row.party),
        Record::Writer(writer) => is_wrong_number(&writer.party),
        Record::WriterTerritory(row) => is_wrong_number(&row.party),
        Record::PublisherForWriter(link) => {
            is_wrong_number(&link.publisher_party) || is_wrong_number(&link.writer_party)
        }
        _ => false,
    }
}

/// Whether a number of a party in one of the records is not printable ASCII (profile).
pub(crate) fn have_wrong_number(records: &[Record<'_>]) -> bool
    ensures { result ≡ list_any has_wrong_number records.now }
{
    records.iter().any(|record| has_wrong_number(record))
}
