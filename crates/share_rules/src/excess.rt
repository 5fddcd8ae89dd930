//! Whether the holders of a transaction own or collect too much.
ghost use Rattle.std.specs.Prelude.{◌≡◌, ◌≤◌, length, true, false, IfNone, IfSome};
ghost use Rattle.share_rules.specs.Fault.{collects_too_much, owns_too_much};
ghost use Rattle.share_rules.specs.Steps.{is_exceeded};
ghost use Rattle.share_rules.specs.Blocks.{collected_behind};

use crate::collecting::collection_shares;
use crate::latest_shares::{collected_in, note, note_all};
use crate::office::Office;
use crate::party::InterestedParty;
use crate::party_keys::{BLOCK, FEW, PartyKeys};
use crate::totals::Totals;
use cwr_records::Record;

/// Whether the ownership shares of a right add up to more than the limit (profile).
pub(crate) fn owns_too_much(records: &[Record<'_>]) -> bool
    ensures { result ≡ owns_too_much records.now }
{
    let mut totals = Totals::none();
    for record in records {
        let Some(party) = InterestedParty::of(record) else {
            continue;
        };
        totals = totals.with(party.shares.shares());
        if totals.is_exceeded() {
            return true;
        }
    }
    false
}

// The same of a few records, gone through for each party.
fn few_collect_too_much(records: &[Record<'_>], office: &Office) -> bool
    ensures { result ≡ collects_too_much office.now records.now }
{
    let mut totals = Totals::none();
    for (index, record) in records.iter().enumerate() {
        let Some(party) = InterestedParty::of(record) else {
            continue;
        };
        totals = totals.with(collection_shares(&party, &records[index + 1..], office));
        if totals.is_exceeded() {
            return true;
        }
    }
    false
}

// The totals with the collection shares of the records from one on to another; none where they are more than the
// limit.
fn with_block(
    totals: Totals,
    records: &[Record<'_>],
    start: usize,
    end: usize,
    office: &Office,
) -> Option<Totals>
    requires order { start ≤ end }
    requires within { end ≤ length records.now }
    requires room { is_exceeded totals ≡ false }
    requires totals { totals ≡ collected_behind office.now records.now end }
    ensures none { IfNone result (collects_too_much office.now records.now ≡ true) }
    ensures room { IfSome result (λ t. is_exceeded t ≡ false) }
    ensures totals { IfSome result (λ t. t ≡ collected_behind office.now records.now start) }
{
    let keys = PartyKeys::of(&records[start..end]);
    let mut latest = [None; BLOCK];
    note_all(&keys, &mut latest, &records[end..], office);
    let mut totals = totals;
    let mut index = end;
    while index > start {
        index -= 1;
        let after = &records[index + 1..];
        totals = totals.with(collected_in(&keys, &latest, &records[index], after, office));
        if totals.is_exceeded() {
            return None;
        }
        note(&keys, &mut latest, &records[index], office);
    }
    Some(totals)
}

/// Whether the collection shares of a right at an office add up to more than the limit (profile).
pub(crate) fn collects_too_much(records: &[Record<'_>], office: &Office) -> bool
    ensures { result ≡ collects_too_much office.now records.now }
{
    if records.len() <= FEW {
        return few_collect_too_much(records, office);
    }
    let mut totals = Totals::none();
    let mut end = records.len();
    while end > 0 {
        let start = end.saturating_sub(BLOCK);
        match with_block(totals, records, start, end, office) {
            Some(more) => totals = more,
            None => return true,
        }
        end = start;
    }
    false
}
