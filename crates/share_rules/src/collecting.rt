//! What an interested party collects at the office.
ghost use Rattle.std.specs.Prelude.{◌≡◌};
ghost use Rattle.cwr_records.specs.Typed.{indicator_of, territory_of};
ghost use Rattle.share_rules.specs.Parties.{collected, counts, names_territory, shares_by};
ghost use Rattle.share_rules.specs.Steps.{shares_after};

use crate::office::Office;
use crate::party::InterestedParty;
use crate::party_search::Sought;
use crate::shares::Shares;
use crate::territory_row::TerritoryRow;
use cwr_records::{Fixed, Indicator, Record, TisCode};

/// The TIS code of the world (CISAC TIS).
const WORLD: u16 = 2_136;

// Whether a territory field names the world or the office's own territory (profile).
fn names_territory(territory: &Fixed<'_, 4>, office: &Office) -> bool
    ensures { result ≡ names_territory office.now (territory_of territory.now) }
{
    match TisCode::from_field(&territory.field()) {
        Some(code) => code.value() == WORLD || code.value() == office.territory,
        None => false,
    }
}

/// Whether a territory row counts at an office: its indicator is I or E, and it names the world or the office's own
/// territory (profile).
pub(crate) fn counts(row: &TerritoryRow<'_>, office: &Office) -> bool
    ensures { result ≡ counts office.now row.now }
{
    Indicator::from_field(&row.indicator.field()).is_some()
        && names_territory(&row.territory, office)
}

/// The shares of a row that counts: none where it excludes its territory (profile).
pub(crate) fn shares_by(row: &TerritoryRow<'_>) -> Shares
    ensures { result ≡ shares_by (indicator_of row.now.indicator) row.now.shares }
{
    match Indicator::from_field(&row.indicator.field()) {
        Some(Indicator::Included) => row.shares.shares(),
        _ => Shares::none(),
    }
}

// The shares of a line that is a counting row of the party, or else those of the rows before it.
fn shares_after(sought: &Sought<'_>, before: Shares, line: &Record<'_>, office: &Office) -> Shares
    ensures { result ≡ shares_after office.now sought.now.side sought.now.number before line.now }
{
    if !sought.has_row(line) {
        return before;
    }
    match TerritoryRow::of(line) {
        Some(row) if counts(&row, office) => shares_by(&row),
        _ => before,
    }
}

/// The collection shares of an interested party at an office, out of the records after it: those of its last counting
/// row, a row being the nearest party's before it; no shares where none counts (profile).
pub(crate) fn collection_shares(
    party: &InterestedParty<'_>,
    after: &[Record<'_>],
    office: &Office,
) -> Shares
    ensures { result ≡ collected office.now (record { party = party.now; after = after.now }) }
{
    let sought = Sought::new(party.side, &party.number);
    let mut shares = Shares::none();
    for record in after {
        if sought.is_party(record) {
            return shares;
        }
        shares = shares_after(&sought, shares, record, office);
    }
    shares
}
