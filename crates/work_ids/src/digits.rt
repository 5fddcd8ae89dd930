//! Numbers as decimal digits.
ghost use Rattle.std.specs.Prelude.{◌≡◌, ◌≤◌, ◌<◌, ◌+◌, ◌^◌, IfSome, IsTrue, length, min, option_map, true};
ghost use Rattle.std.specs.List.{list_all};
ghost use Rattle.std.specs.Str.Parse.{digits_value};
ghost use Rattle.work_ids.specs.Characters.{is_digit};
ghost use Rattle.work_ids.specs.Digits.{is_number, last_digits, decimal_value};
ghost use Rattle.work_ids.specs.Numbers.{number_in_text};

use crate::characters::are_digits;

/// Whether the bytes are one or more decimal digits.
pub fn is_number(bytes: &[u8]) -> bool
    ensures { result ≡ is_number bytes.now }
{
    !bytes.is_empty() && are_digits(bytes)
}

/// The decimal value of at most 19 bytes, where they are digits alone, and at least one; else none.
pub fn number(digits: &[u8]) -> Option<u64>
    requires { length digits.now ≤ 19 }
    ensures value { result ≡ decimal_value digits.now }
    ensures limit { IfSome result (λ n. n < 10 ^ length digits.now) }
{
    if !is_number(digits) {
        return None;
    }
    let mut value = 0;
    for digit in digits {
        value = 10 * value + u64::from(*digit - b'0');
    }
    Some(value)
}

/// The number that decimal digits spell, however many they are, or one more than `most` where it is above that.
pub fn number_up_to(digits: &[u8], most: u32) -> u32
    requires digits { IsTrue (list_all is_digit digits.now) }
    requires most { most ≤ 99999999 }
    ensures { result ≡ min (digits_value 10 digits.now) (most + 1) }
{
    let mut number = 0;
    for digit in digits {
        number = (number * 10 + u32::from(*digit - b'0')).min(most + 1);
    }
    number
}

/// The number that decimal digits without a leading zero spell, or one more than `most` where it is above that; none where
/// the text is not of that form.
pub(crate) fn number_from_one(text: &[u8], most: u32) -> Option<u32>
    requires most { most ≤ 99999999 }
    ensures { result ≡ option_map (λ number. min number (most + 1)) (number_in_text (λ _. true) text.now) }
{
    if !is_number(text) || text[0] == b'0' {
        return None;
    }
    Some(number_up_to(text, most))
}

/// The number that at most four digits spell.
pub(crate) fn short_number(digits: &[u8]) -> u16
    requires digits { IsTrue (list_all is_digit digits.now) }
    requires length { length digits.now ≤ 4 }
    ensures value { result ≡ digits_value 10 digits.now }
    ensures limit { result < 10 ^ length digits.now }
{
    number_up_to(digits, 9_999) as u16
}

/// The last `WIDTH` decimal digits of a number, with zeros in front.
pub fn last_digits<const WIDTH: usize>(number: u64) -> [u8; WIDTH]
    ensures { result ≡ last_digits WIDTH number }
{
    let mut bytes = [b'0'; WIDTH];
    let mut rest = number;
    let mut at = WIDTH;
    while at > 0 {
        at -= 1;
        bytes[at] = b'0' + (rest % 10) as u8;
        rest /= 10;
    }
    bytes
}
