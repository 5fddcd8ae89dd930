//! Looking through records for an interested party, or for the territory rows of one.
ghost use Rattle.std.specs.Prelude.{◌≡◌};
ghost use Rattle.std.specs.List.{list_any};
ghost use Rattle.cwr_records.specs.Blanks.{trimmed as trimmed_bytes};
ghost use Rattle.share_rules.specs.Parties.{is_interested_party, row_in, same_number};
ghost use Rattle.share_rules.specs.Steps.{row_is};

use crate::party::Side;
use cwr_records::{Fixed, Record};

/// Whom records are looked through for: a side, and a number that is kept beside its trimmed bytes, so that it is
/// trimmed once and not for each record.
#[derive(Drop)]
pub(crate) struct Sought<'a> {
    side: Side,
    number: Fixed<'a, 9>,
    trimmed: &'a [u8],
    ghost is_trimmed: { trimmed.now ≡ trimmed_bytes number },
}

impl<'a> Sought<'a> {
    /// The party of a side with a number.
    pub(crate) fn new(side: Side, number: &Fixed<'a, 9>) -> Sought<'a>
        ensures side { result.side ≡ side }
        ensures number { result.number ≡ number.now }
    {
        Sought {
            side,
            number: number.again(),
            trimmed: number.field().trim(),
        }
    }

    // Whether a number is that of the party.
    fn has_number(&self, number: &Fixed<'_, 9>) -> bool
        ensures { result ≡ same_number number.now self.now.number }
    {
        number.field().trim() == self.trimmed
    }

    /// Whether a record is this interested party.
    pub(crate) fn is_party(&self, record: &Record<'_>) -> bool
        ensures { result ≡ is_interested_party self.now.side self.now.number «record».now }
    {
        match self.side {
            Side::Publisher => match record {
                Record::Publisher(publisher) => self.has_number(&publisher.party),
                _ => false,
            },
            Side::Writer => match record {
                Record::Writer(writer) => self.has_number(&writer.party),
                _ => false,
            },
        }
    }

    /// Whether a record is a territory row of this party.
    pub(crate) fn has_row(&self, record: &Record<'_>) -> bool
        ensures { result ≡ row_is self.now.side self.now.number (row_in «record».now) }
    {
        match self.side {
            Side::Publisher => match record {
                Record::PublisherTerritory(row) => self.has_number(&row.party),
                _ => false,
            },
            Side::Writer => match record {
                Record::WriterTerritory(row) => self.has_number(&row.party),
                _ => false,
            },
        }
    }

    /// Whether one of the records is this interested party, the last one looked at first.
    pub(crate) fn is_among(&self, records: &[Record<'_>]) -> bool
        ensures { result ≡ list_any (is_interested_party self.now.side self.now.number) records.now }
    {
        let mut end = records.len();
        while end > 0 {
            end -= 1;
            if self.is_party(&records[end]) {
                return true;
            }
        }
        false
    }
}
