//! The IPI name number of a party.
ghost use Rattle.std.specs.Prelude.{◌≡◌, ◌≤◌, length, true};
ghost use Rattle.std.specs.List.{list_all};
ghost use Rattle.work_ids.specs.IpiName.{eleven_digits, ipi_field_of, is_ipi_name, is_ipi_number, is_zero};

use crate::IdFault;
use crate::blanks::trim;
use crate::characters::are_digits;
use std::marker::Model;

/// Digits of an IPI name number.
pub const IPI_NAME_LENGTH: usize = 11;

/// The number under which a party is known to all societies: eleven digits (CISAC CWR 2.2, IPI name number).
#[derive(Clone, Copy, Debug, PartialEq, Eq, PartialOrd, Ord)]
pub struct IpiName {
    bytes: [u8; 11],
}

impl Model for IpiName {
    ghost use Rattle.std.specs.Prelude.{◌≡◌, List, ℕ, true};
    ghost use Rattle.work_ids.specs.IpiName.{is_ipi_number};

    ghost Value = { List ℕ };

    ghost view = { λ n. n.bytes };

    ghost invariant = { λ n. is_ipi_number n.bytes ≡ true };

    ghost inverse = { λ bytes. record { bytes = bytes } };
}

// Whether the byte is the digit zero.
fn is_zero(byte: u8) -> bool
    ensures { result ≡ is_zero byte }
{
    byte == b'0'
}

/// Whether each byte is the digit zero.
pub(crate) fn are_zeros(bytes: &[u8]) -> bool
    ensures { result ≡ list_all is_zero bytes.now }
{
    bytes.iter().all(|byte| is_zero(*byte))
}

// At most eleven digits, filled with zeros on the left.
fn zero_filled(digits: &[u8]) -> [u8; 11]
    requires { length digits.now ≤ 11 }
    ensures { result ≡ eleven_digits digits.now }
{
    let mut bytes = [b'0'; 11];
    bytes[IPI_NAME_LENGTH - digits.len()..].copy_from_slice(digits);
    bytes
}

impl IpiName {
    /// The number of at most eleven digits, not all zeros, filled with zeros on the left.
    #[tactic(auto, using(crate::proofs::lemmas::IpiNames::ipi_filled))]
    pub(crate) fn from_digits(digits: &[u8]) -> IpiName
        requires room { length digits.now ≤ 11 }
        requires digits { is_ipi_name digits.now ≡ true }
        ensures { result ≡ eleven_digits digits.now }
    {
        IpiName {
            bytes: zero_filled(digits),
        }
    }

    /// The number that a field has, blanks at both ends aside, filled with zeros on the left; none where it is blank or
    /// has zeros alone; else the least of `Length` (over eleven digits) and `Character` that holds (profile).
    pub fn from_field(field: &[u8]) -> Result<Option<IpiName>, IdFault>
        ensures { result ≡ ipi_field_of field.now }
    {
        let digits = trim(field);
        if digits.len() > IPI_NAME_LENGTH {
            return Err(IdFault::Length);
        }
        if !are_digits(digits) {
            return Err(IdFault::Character);
        }
        if are_zeros(digits) {
            return Ok(None);
        }
        Ok(Some(IpiName::from_digits(digits)))
    }

    /// The eleven digits.
    pub fn as_bytes(&self) -> &[u8]
        ensures bytes { result.now ≡ self.now }
        ensures len { length result.now ≡ 11 }
        ensures number { is_ipi_number self.now ≡ true }
    {
        &self.bytes
    }
}
