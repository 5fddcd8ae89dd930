//! The latest shares of each party of a block, as records are gone through from the last one on.
ghost use Rattle.std.specs.Prelude.{◌≡◌, [], length};
ghost use Rattle.share_rules.specs.Parties.{party_in};
ghost use Rattle.share_rules.specs.Blocks.{AreLatest, TakesParty, TakesRecord, TakesRow, collected_in};

use crate::collecting::{collection_shares, counts, shares_by};
use crate::office::Office;
use crate::party::InterestedParty;
use crate::party_keys::{BLOCK, PartyKeys};
use crate::shares::Shares;
use crate::territory_row::TerritoryRow;
use cwr_records::Record;

// Notes an interested party: what stands behind it belongs to it, and to none before it. It is a function of its own for
// the prover, which loses what is known where branches join.
fn note_party(keys: &PartyKeys, latest: &mut [Option<Shares>], party: &InterestedParty<'_>)
    requires { length latest.old ≡ BLOCK }
    ensures { TakesParty keys.now.keys latest.old latest.new party.now }
{
    if let Some(place) = keys.place(party.side, &party.number) {
        latest[place] = None;
    }
}

// Notes a territory row: its shares where it counts, and no later row does.
fn note_row(
    keys: &PartyKeys,
    latest: &mut [Option<Shares>],
    row: &TerritoryRow<'_>,
    office: &Office,
)
    requires { length latest.old ≡ BLOCK }
    ensures { TakesRow office.now keys.now.keys latest.old latest.new row.now }
{
    if !counts(row, office) {
        return;
    }
    if let Some(place) = keys.place(row.side, &row.number) {
        if latest[place].is_none() {
            latest[place] = Some(shares_by(row));
        }
    }
}

/// One more record, in front of those that were gone through.
pub(crate) fn note(
    keys: &PartyKeys,
    latest: &mut [Option<Shares>],
    record: &Record<'_>,
    office: &Office,
)
    requires { length latest.old ≡ BLOCK }
    ensures { TakesRecord office.now keys.now.keys latest.old latest.new «record».now }
{
    if let Some(party) = InterestedParty::of(record) {
        note_party(keys, latest, &party);
        return;
    }
    if let Some(row) = TerritoryRow::of(record) {
        note_row(keys, latest, &row, office);
    }
}

/// Some records, from the last one on.
pub(crate) fn note_all(
    keys: &PartyKeys,
    latest: &mut [Option<Shares>],
    records: &[Record<'_>],
    office: &Office,
)
    requires room { length latest.old ≡ BLOCK }
    requires none { AreLatest office.now keys.now.keys latest.old [] }
    ensures { AreLatest office.now keys.now.keys latest.new records.now }
{
    let mut end = records.len();
    while end > 0 {
        end -= 1;
        note(keys, latest, &records[end], office);
    }
}

/// The collection shares of an interested party at an office, out of the records after it.
pub(crate) fn collected_by(
    keys: &PartyKeys,
    latest: &[Option<Shares>],
    party: &InterestedParty<'_>,
    after: &[Record<'_>],
    office: &Office,
) -> Shares
    requires room { length latest.now ≡ BLOCK }
    requires latest { AreLatest office.now keys.now.keys latest.now after.now }
    ensures { result ≡ collected_in office.now (Some party.now) after.now }
{
    match keys.place(party.side, &party.number) {
        Some(place) => latest[place].unwrap_or(Shares::none()),
        None => collection_shares(party, after, office),
    }
}

/// What a record collects: nothing where it is no interested party.
pub(crate) fn collected_in(
    keys: &PartyKeys,
    latest: &[Option<Shares>],
    record: &Record<'_>,
    after: &[Record<'_>],
    office: &Office,
) -> Shares
    requires room { length latest.now ≡ BLOCK }
    requires latest { AreLatest office.now keys.now.keys latest.now after.now }
    ensures { result ≡ collected_in office.now (party_in «record».now) after.now }
{
    match InterestedParty::of(record) {
        Some(party) => collected_by(keys, latest, &party, after, office),
        None => Shares::none(),
    }
}
