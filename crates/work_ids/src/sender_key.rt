//! Who sends transmissions.
ghost use Rattle.std.specs.Prelude.{◌≡◌, length, take, drop, true};
ghost use Rattle.work_ids.specs.SenderKey.{is_sender_key, sender_key_of};

use crate::IdFault;
use crate::characters::are_capitals_or_digits;
use std::marker::Model;

/// Bytes of a sender key.
pub const SENDER_KEY_LENGTH: usize = 11;

/// Bytes of the sender type, with which a sender key begins; the sender ID is the rest.
pub const SENDER_TYPE_LENGTH: usize = 2;

/// Who sends transmissions: sender type and sender ID of a transmission header, eleven of A-Z and 0-9
/// (CISAC CWR 2.2, HDR bytes 4 to 14; the characters: profile).
#[derive(Clone, Copy, Debug, PartialEq, Eq, PartialOrd, Ord)]
pub struct SenderKey {
    bytes: [u8; 11],
}

impl Model for SenderKey {
    ghost use Rattle.std.specs.Prelude.{◌≡◌, List, ℕ, true};
    ghost use Rattle.work_ids.specs.SenderKey.{is_sender_key};

    ghost Value = { List ℕ };

    ghost view = { λ k. k.bytes };

    ghost invariant = { λ k. is_sender_key k.bytes ≡ true };

    ghost inverse = { λ bytes. record { bytes = bytes } };
}

impl SenderKey {
    /// The key that the eleven bytes spell; else the least of `Length` and `Character` that holds (profile).
    pub fn from_bytes(bytes: &[u8]) -> Result<SenderKey, IdFault>
        ensures { result ≡ sender_key_of bytes.now }
    {
        if bytes.len() != SENDER_KEY_LENGTH {
            return Err(IdFault::Length);
        }
        if !are_capitals_or_digits(bytes) {
            return Err(IdFault::Character);
        }
        Ok(SenderKey::from_characters(bytes))
    }

    /// The key of eleven of A-Z and 0-9.
    pub(crate) fn from_characters(bytes: &[u8]) -> SenderKey
        requires { is_sender_key bytes.now ≡ true }
        ensures { result ≡ bytes.now }
    {
        let mut key = [0; 11];
        key.copy_from_slice(bytes);
        SenderKey { bytes: key }
    }

    /// The eleven bytes.
    pub fn as_bytes(&self) -> &[u8]
        ensures bytes { result.now ≡ self.now }
        ensures len { length result.now ≡ 11 }
        ensures key { is_sender_key self.now ≡ true }
    {
        &self.bytes
    }

    /// Sender type: the first two bytes.
    pub fn sender_type(&self) -> &[u8]
        ensures bytes { result.now ≡ take 2 self.now }
        ensures len { length result.now ≡ 2 }
    {
        &self.bytes[..SENDER_TYPE_LENGTH]
    }

    /// Sender ID: the last nine bytes.
    pub fn sender_id(&self) -> &[u8]
        ensures bytes { result.now ≡ drop 2 self.now }
        ensures len { length result.now ≡ 9 }
    {
        &self.bytes[SENDER_TYPE_LENGTH..]
    }
}
