//! Keys of the parties that records name, and their places in a block: many records find their parties without a search
//! for each, and without memory.
ghost use Rattle.std.specs.Prelude.{◌≡◌, ◌<◌, ◌≤◌, length, IfSome};
ghost use Rattle.cwr_records.specs.Blanks.{trimmed};
ghost use Rattle.share_rules.specs.Blocks.{AreBytes, descend, halves, key_of, party_key, place_in};

use crate::party::Side;
use cwr_records::{Fixed, Record};

/// Records of one block: a table of their keys stands on the stack (32 KiB).
pub(crate) const BLOCK: usize = 2_048;

/// The most records of a transaction that is searched for each party: that is faster there than to make a block.
pub(crate) const FEW: usize = 32;

/// The steps that halve a block, from its half on.
const HALVES: [usize; 11] = [1_024, 512, 256, 128, 64, 32, 16, 8, 4, 2, 1];

/// The base of a key's digits: one for each byte, and one for no byte.
const BASE: u128 = 257;

/// The keys of the parties that the records of a block name, sorted, and nobody's behind them. That they are sorted is
/// for speed alone: no answer rests on it.
#[derive(Drop)]
pub(crate) struct PartyKeys {
    keys: [u128; BLOCK],
}

// The key of a side and of the trimmed bytes of a number: another one for any other.
fn key_of(side: Side, bytes: &[u8]) -> u128
    requires { length bytes.now ≤ 9 }
    ensures key { result ≡ key_of side bytes.now }
    ensures bytes { AreBytes bytes.now }
{
    let mut key: u128 = match side {
        Side::Publisher => 1,
        Side::Writer => 2,
    };
    let mut index = bytes.len();
    while index > 0 {
        index -= 1;
        key = key * BASE + (u128::from(bytes[index]) + 1);
    }
    key
}

// The key of a side and of a party's number, as it is compared.
fn party_key(side: Side, number: &Fixed<'_, 9>) -> u128
    ensures key { result ≡ party_key side number.now }
    ensures bytes { AreBytes (trimmed number.now) }
{
    key_of(side, number.field().trim())
}

// The key of the party that a record is, is a territory row of, or names as a writer's publisher, and nobody's where
// it names none.
fn named_key(record: &Record<'_>) -> u128 {
    match record {
        Record::Publisher(publisher) => party_key(Side::Publisher, &publisher.party),
        Record::PublisherTerritory(row) => party_key(Side::Publisher, &row.party),
        Record::Writer(writer) => party_key(Side::Writer, &writer.party),
        Record::WriterTerritory(row) => party_key(Side::Writer, &row.party),
        Record::PublisherForWriter(link) => party_key(Side::Publisher, &link.publisher_party),
        _ => u128::MAX,
    }
}

impl PartyKeys {
    /// The keys of the parties that the first records name, up to those of one block.
    pub(crate) fn of(records: &[Record<'_>]) -> PartyKeys {
        let mut keys = [u128::MAX; BLOCK];
        let count = records.len().min(BLOCK);
        for index in 0..count {
            keys[index] = named_key(&records[index]);
        }
        let front = &mut keys[..count];
        front.sort_unstable();
        PartyKeys { keys }
    }

    /// The place of a party of a side with a number; none where no record of the block names it.
    pub(crate) fn place(&self, side: Side, number: &Fixed<'_, 9>) -> Option<usize>
        ensures place { result ≡ place_in self.now.keys side number.now }
        ensures within { IfSome result (λ place. place < BLOCK) }
        ensures bytes { AreBytes (trimmed number.now) }
    {
        let key = party_key(side, number);
        let place = self.descend(key);
        if self.keys[place] == key {
            Some(place)
        } else {
            None
        }
    }

    // The last place with a key that is not greater, and the first one where each is greater.
    fn descend(&self, key: u128) -> usize
        ensures place { result ≡ descend self.now.keys key halves 0 }
        ensures within { result < BLOCK }
    {
        let mut place = 0;
        for step in HALVES {
            if self.keys[place + step] <= key {
                place += step;
            }
        }
        place
    }
}
