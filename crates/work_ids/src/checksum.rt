//! The check digit of an ISWC.
ghost use Rattle.std.specs.Prelude.{◌≡◌, ◌-◌, ◌≤◌, ◌↔◌, ℕ, Some, is_some, true};
ghost use Rattle.std.specs.List.{list_all};
ghost use Rattle.work_ids.specs.Characters.{is_digit};
ghost use Rattle.work_ids.specs.CheckDigit.{digit_value, is_check_digit, weighted_sum};

use crate::characters::are_digits;

/// An ISWC's check digit completes a sum to a multiple of this.
const MODULUS: usize = 10;

// The value of an ASCII digit, 0 for a byte before them.
fn digit_value(byte: u8) -> usize
    ensures value { result ≡ digit_value byte }
    ensures bound { result ≤ 207 }
{
    usize::from(byte.saturating_sub(b'0'))
}

// 1 for the letter T, and each digit times its place from 1.
#[tactic(auto, using(crate::proofs::lemmas::Sums::product_bound, crate::proofs::lemmas::Sums::weighted_more), unfolding(crate::specs::CheckDigit::weighted_sum))]
fn weighted_sum(digits: &[u8; 9]) -> usize
    ensures value { result ≡ weighted_sum digits.now }
    ensures bound { result ≤ 16768 }
{
    let mut sum = 1;
    for index in 0..9 {
        sum += (index + 1) * digit_value(digits[index]);
    }
    sum
}

/// The check digit of nine ASCII digits, an ASCII digit too: the one with which 1, each digit times its place and the
/// check digit itself add up to a multiple of ten; none where a byte is no digit (ISO 15707).
pub fn check_digit(digits: &[u8; 9]) -> Option<u8>
    ensures exists { is_some result ≡ list_all is_digit digits.now }
    ensures right { (check : ℕ) → (result ≡ Some check) ↔ (is_check_digit digits.now check ≡ true) }
{
    if !are_digits(digits) {
        return None;
    }
    let above = weighted_sum(digits) % MODULUS;
    Some(b'0' + ((MODULUS - above) % MODULUS) as u8)
}

/// Whether the byte is the check digit of nine digits.
pub fn is_check_digit(digits: &[u8; 9], check: u8) -> bool
    ensures { result ≡ is_check_digit digits.now check }
{
    check_digit(digits) == Some(check)
}
