//! Which parties of a block are among some records.
ghost use Rattle.std.specs.Prelude.{◌≡◌, [], length};
ghost use Rattle.std.specs.List.{list_any};
ghost use Rattle.share_rules.specs.Parties.{is_interested_party};
ghost use Rattle.share_rules.specs.Blocks.{AreFound, FindsParty, FindsRecord};

use crate::party::{InterestedParty, Side};
use crate::party_keys::{BLOCK, PartyKeys};
use crate::party_search::Sought;
use cwr_records::{Fixed, Record};

// Marks an interested party, behind the records that were gone through. It is a function of its own for the prover, which
// loses what is known where branches join.
fn mark_party(keys: &PartyKeys, found: &mut [bool], party: &InterestedParty<'_>)
    requires { length found.old ≡ BLOCK }
    ensures { FindsParty keys.now.keys found.old found.new party.now }
{
    if let Some(place) = keys.place(party.side, &party.number) {
        found[place] = true;
    }
}

/// One more record, behind those that were gone through.
pub(crate) fn mark(keys: &PartyKeys, found: &mut [bool], record: &Record<'_>)
    requires { length found.old ≡ BLOCK }
    ensures { FindsRecord keys.now.keys found.old found.new «record».now }
{
    if let Some(party) = InterestedParty::of(record) {
        mark_party(keys, found, &party);
    }
}

/// Some records.
pub(crate) fn mark_all(keys: &PartyKeys, found: &mut [bool], records: &[Record<'_>])
    requires room { length found.old ≡ BLOCK }
    requires none { AreFound keys.now.keys found.old [] }
    ensures { AreFound keys.now.keys found.new records.now }
{
    for record in records {
        mark(keys, found, record);
    }
}

/// Whether a party of a side with a number is among the records that were gone through.
pub(crate) fn is_found(
    keys: &PartyKeys,
    found: &[bool],
    side: Side,
    number: &Fixed<'_, 9>,
    records: &[Record<'_>],
) -> bool
    requires room { length found.now ≡ BLOCK }
    requires found { AreFound keys.now.keys found.now records.now }
    ensures { result ≡ list_any (is_interested_party side number.now) records.now }
{
    match keys.place(side, number) {
        Some(place) => found[place],
        None => Sought::new(side, number).is_among(records),
    }
}
