//! Names of files, in which a number of a year stands.
ghost use Rattle.std.specs.Prelude.{◌≡◌, ◌↔◌, ℕ, Some, length};
ghost use Rattle.std.specs.Str.{bytes_eq};
ghost use Rattle.work_ids.specs.Digits.{last_digits};
ghost use Rattle.work_ids.specs.FileNames.{IsNameOf, is_file_name, is_name_end, number_in_capitals, number_in_name};

use crate::characters::{are_capitals_or_digits, are_digits, make_capitals};
use crate::digits::{last_digits, short_number};
use crate::{Segment, TransmissionNumber};

/// The characters with which a name begins.
const STANDARD: &[u8] = b"CW";

/// The characters of a name before the last digit of its version.
const VERSION: &[u8] = b".V2";

/// Characters of a name whose sender has a code of two.
const SHORT_NAME: usize = 18;

/// Characters of a name whose sender has a code of three.
const LONG_NAME: usize = 19;

/// Characters of a name behind the sender's code.
const NAME_END: usize = 8;

// Whether bytes are the three digits of a society.
fn are_digits_of(bytes: &[u8], society: u16) -> bool
    ensures { result ≡ bytes_eq bytes.now (last_digits 3 society) }
{
    bytes == last_digits::<3>(u64::from(society)).as_slice()
}

// Whether eight bytes end a name that is sent to a society.
#[tactic(auto, unfolding(crate::specs::FileNames::is_name_end))]
fn is_name_end(bytes: &[u8], society: u16) -> bool
    requires { length bytes.now ≡ 8 }
    ensures { result ≡ is_name_end society bytes.now }
{
    bytes[0] == b'_'
        && are_digits_of(&bytes[1..4], society)
        && &bytes[4..7] == VERSION
        && (bytes[7] == b'1' || bytes[7] == b'2')
}

// Whether a name in capitals is that of a file sent to a society.
#[tactic(auto, unfolding(crate::specs::FileNames::is_file_name))]
fn is_file_name(name: &[u8], society: u16) -> bool
    ensures { result ≡ is_file_name society name.now }
{
    if name.len() != SHORT_NAME && name.len() != LONG_NAME {
        return false;
    }
    let end = name.len() - NAME_END;
    &name[..2] == STANDARD
        && are_digits(&name[2..4])
        && are_digits(&name[4..8])
        && are_capitals_or_digits(&name[8..end])
        && is_name_end(&name[end..], society)
}

// The number in a name that is in capitals.
fn number_in_capitals(name: &[u8], society: u16) -> Option<TransmissionNumber>
    ensures { result ≡ number_in_capitals society name.now }
{
    if !is_file_name(name, society) {
        return None;
    }
    let year = short_number(&name[2..4]) as u8;
    let sequence = short_number(&name[4..8]);
    TransmissionNumber::new(Segment::Year(year), u32::from(sequence))
}

/// The number in the name of a file that is sent to a society, as in `CW260001EXA_900.V22`: `CW`, the last two digits of the
/// year, a number of 0001 to 9999, the sender's code of two or three of A-Z and 0-9, `_`, the society's three digits, and
/// `.V21` or `.V22`, small letters read as capitals (profile). None for any other name.
pub fn read_file_name(name: &[u8], society: u16) -> Option<TransmissionNumber>
    ensures value { result ≡ number_in_name society name.now }
    ensures exact { (number : ℕ) → (result ≡ Some number) ↔ IsNameOf society number name.now }
{
    if name.len() > LONG_NAME {
        return None;
    }
    let mut capitals = [0; 19];
    let capitals = &mut capitals[..name.len()];
    capitals.copy_from_slice(name);
    make_capitals(capitals);
    number_in_capitals(capitals, society)
}
