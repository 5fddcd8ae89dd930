//! The interested parties of a transaction.
ghost use Rattle.std.specs.Prelude.{◌≡◌};

use crate::share_fields::ShareFields;
use cwr_records::{Fixed, Record};

/// Whether an interested party is a publisher or a writer (CISAC CWR 2.2).
#[derive(Clone, Copy, Debug, PartialEq, Eq)]
pub enum Side {
    Publisher,
    Writer,
}

/// An interested party, SPU or OPU, SWR or OWR: the submitter's number of it, its IPI name number, and its ownership
/// shares (CISAC CWR 2.2).
#[derive(Drop)]
pub struct InterestedParty<'a> {
    pub side: Side,
    pub number: Fixed<'a, 9>,
    pub ipi_name: Fixed<'a, 11>,
    pub shares: ShareFields<'a>,
}

impl<'a> InterestedParty<'a> {
    ghost use Rattle.share_rules.specs.Parties.{party_in};

    /// The interested party that a record is; none where it is a record of another kind.
    pub fn of(record: &Record<'a>) -> Option<InterestedParty<'a>>
        ensures { result ≡ party_in «record».now }
    {
        match record {
            Record::Publisher(publisher) => Some(InterestedParty {
                side: Side::Publisher,
                number: publisher.party.again(),
                ipi_name: publisher.ipi_name.again(),
                shares: ShareFields::new(
                    &publisher.pr_share,
                    &publisher.mr_share,
                    &publisher.sr_share,
                ),
            }),
            Record::Writer(writer) => Some(InterestedParty {
                side: Side::Writer,
                number: writer.party.again(),
                ipi_name: writer.ipi_name.again(),
                shares: ShareFields::new(&writer.pr_share, &writer.mr_share, &writer.sr_share),
            }),
            _ => None,
        }
    }
}
