//! Who the office is.
ghost use Rattle.std.specs.Prelude.{◌≡◌, ◌≤◌, ◌↔◌, IfSome, IsSome, IsTrue, take, true};
ghost use Rattle.share_rules.specs.OfficeLimits.{is_office};
ghost use Rattle.work_ids.specs.Blanks.{fill};

use work_ids::{are_printable, fill};

/// Bytes of the longest name of an office.
const MAX_NAME: usize = 45;

/// Greatest number of a society.
const MAX_SOCIETY: u16 = 999;

/// Greatest number of a territory.
const MAX_TERRITORY: u16 = 9_999;

/// Who the office is: its society's number 1 to 999, its territory's TIS number 1 to 9,999, and its
/// name, 1 to 45 bytes of printable ASCII, kept filled with blanks (profile).
#[derive(Clone, Copy, Debug)]
pub struct Office {
    pub society: u16,
    pub territory: u16,
    pub name: [u8; 45],
    pub name_length: usize,
    ghost within_limits: { is_office society territory (take name_length name) ≡ true },
    ghost name_filled: { name ≡ fill 45 (take name_length name) },
    ghost name_in_range: { name_length ≤ 45 },
}

impl Office {
    ghost use Rattle.share_rules.specs.Office.{IsOfficeOf, name_of};

    /// The office with these numbers and this name; none where one of them is out of its limits.
    #[tactic(auto, using(crate::proofs::lemmas::Names::take_front))]
    pub fn new(society: u16, territory: u16, name: &[u8]) -> Option<Office>
        ensures given { IsSome result ↔ IsTrue (is_office society territory name.now) }
        ensures office { IfSome result (λ o. IsOfficeOf society territory name.now o) }
    {
        if society == 0 || society > MAX_SOCIETY || territory == 0 || territory > MAX_TERRITORY {
            return None;
        }
        if name.is_empty() || name.len() > MAX_NAME || !are_printable(name) {
            return None;
        }
        Some(Office {
            society,
            territory,
            name: fill(name),
            name_length: name.len(),
        })
    }

    /// The name without the blanks that fill it.
    pub fn name(&self) -> &[u8]
        ensures { result.now ≡ name_of self.now }
    {
        &self.name[..self.name_length]
    }
}
