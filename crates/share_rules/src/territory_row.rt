//! The territory rows of a transaction.
ghost use Rattle.std.specs.Prelude.{◌≡◌};

use crate::party::Side;
use crate::share_fields::ShareFields;
use cwr_records::{Fixed, Record};

/// A territory row, SPT or SWT: whose it is, and the collection shares in a territory that it includes or excludes
/// (CISAC CWR 2.2).
#[derive(Drop)]
pub struct TerritoryRow<'a> {
    pub side: Side,
    pub number: Fixed<'a, 9>,
    pub shares: ShareFields<'a>,
    pub indicator: Fixed<'a, 1>,
    pub territory: Fixed<'a, 4>,
}

impl<'a> TerritoryRow<'a> {
    ghost use Rattle.share_rules.specs.Parties.{row_in};

    /// The territory row that a record is; none where it is a record of another kind.
    pub fn of(record: &Record<'a>) -> Option<TerritoryRow<'a>>
        ensures { result ≡ row_in «record».now }
    {
        match record {
            Record::PublisherTerritory(row) => Some(TerritoryRow {
                side: Side::Publisher,
                number: row.party.again(),
                shares: ShareFields::new(&row.pr_share, &row.mr_share, &row.sr_share),
                indicator: row.indicator.again(),
                territory: row.territory.again(),
            }),
            Record::WriterTerritory(row) => Some(TerritoryRow {
                side: Side::Writer,
                number: row.party.again(),
                shares: ShareFields::new(&row.pr_share, &row.mr_share, &row.sr_share),
                indicator: row.indicator.again(),
                territory: row.territory.again(),
            }),
            _ => None,
        }
    }
}
