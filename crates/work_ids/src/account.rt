//! The accounts that money is credited to.
ghost use Rattle.std.specs.Prelude.{◌≡◌, ◌≤◌, ◌++◌, length, IsTrue, Ok};

use crate::blanks::is_blank_byte;
use crate::characters::{are_capitals_or_digits, are_digits, are_printable};
use crate::ipi_name::{IPI_NAME_LENGTH, are_zeros};
use crate::party_number::PARTY_NUMBER_LENGTH;
use crate::sender_key::SENDER_KEY_LENGTH;
use crate::{IdFault, IpiName, PartyNumber, SenderKey};

/// The text of the account of what nobody claims.
const UNCLAIMED: &[u8] = b"UNCLAIMED";

/// Where money is credited: to a party by its IPI name number, to a party by what a sender calls it, or to nobody
/// (profile).
#[derive(Clone, Copy, Debug, PartialEq, Eq, PartialOrd, Ord)]
pub enum Account {
    /// A party with an IPI name number that is not none.
    Ipi(IpiName),
    /// A sender, and its number of a party, which is not blank.
    Party(SenderKey, PartyNumber),
    /// Nobody.
    Unclaimed,
}

impl Account {
    ghost use Rattle.work_ids.specs.Account.{account_of, account_text, is_spelled, ipi_account_of, is_trimmed_printable, party_account_of};

    // Whether bytes are printable with no blank at either end.
    #[tactic(auto, unfolding(crate::specs::Account::is_trimmed_printable))]
    fn is_trimmed_printable(bytes: &[u8]) -> bool
        requires { 1 ≤ length bytes.now }
        ensures { result ≡ is_trimmed_printable bytes.now }
    {
        are_printable(bytes) && !is_blank_byte(bytes[0]) && !is_blank_byte(bytes[bytes.len() - 1])
    }

    // The account of an IPI name number's digits.
    #[tactic(auto, unfolding(crate::specs::Account::ipi_account_of))]
    fn from_ipi(digits: &[u8]) -> Result<Account, IdFault>
        ensures { result ≡ ipi_account_of digits.now }
    {
        if digits.len() != IPI_NAME_LENGTH {
            return Err(IdFault::Length);
        }
        if !are_digits(digits) || are_zeros(digits) {
            return Err(IdFault::Character);
        }
        Ok(Account::Ipi(IpiName::from_digits(digits)))
    }

    // The account of a sender key and a party number behind it.
    #[tactic(auto, using(crate::proofs::lemmas::PartyNumbers::printable_of, crate::proofs::lemmas::PartyNumbers::front_of), unfolding(crate::specs::Account::party_account_of))]
    fn from_party(bytes: &[u8]) -> Result<Account, IdFault>
        ensures { result ≡ party_account_of bytes.now }
    {
        if bytes.len() <= SENDER_KEY_LENGTH
            || bytes.len() > SENDER_KEY_LENGTH + PARTY_NUMBER_LENGTH
        {
            return Err(IdFault::Length);
        }
        let sender = &bytes[..SENDER_KEY_LENGTH];
        let number = &bytes[SENDER_KEY_LENGTH..];
        if !are_capitals_or_digits(sender) || !Account::is_trimmed_printable(number) {
            return Err(IdFault::Character);
        }
        Ok(Account::Party(
            SenderKey::from_characters(sender),
            PartyNumber::from_trimmed(number),
        ))
    }

    /// The account of a text: `UNCLAIMED`; `I` and eleven digits, not all zeros; or `P`, a sender key and a party number
    /// of 1 to 9 bytes with no blank at either end; else the least of `Length` and `Character` that holds (profile).
    pub fn from_bytes(text: &[u8]) -> Result<Account, IdFault>
        ensures { result ≡ account_of text.now }
    {
        if text == UNCLAIMED {
            return Ok(Account::Unclaimed);
        }
        if text.is_empty() {
            return Err(IdFault::Length);
        }
        match text[0] {
            b'I' => Account::from_ipi(&text[1..]),
            b'P' => Account::from_party(&text[1..]),
            _ => Err(IdFault::Character),
        }
    }

    /// The text of the account, as three pieces that follow one another; `from_bytes` reads it back as the same account,
    /// unless it is a party's with a blank number, which no text spells.
    pub fn pieces(&self) -> (&[u8], &[u8], &[u8])
        ensures text { result.0.now ++ result.1.now ++ result.2.now ≡ account_text self.now }
        ensures back { IsTrue (is_spelled self.now) → account_of (account_text self.now) ≡ Ok self.now }
    {
        match self {
            Account::Ipi(name) => (b"I", name.as_bytes(), b""),
            Account::Party(sender, number) => (b"P", sender.as_bytes(), number.as_bytes()),
            Account::Unclaimed => (UNCLAIMED, b"", b""),
        }
    }
}
