//! The numbers of pools and of performance returns.
ghost use Rattle.std.specs.Prelude.{◌≡◌, ◌≤◌};
ghost use Rattle.work_ids.specs.Numbers.{is_pool_number, is_return_number, number_in_text, number_where};

use crate::digits::number_from_one;
use std::marker::Model;

/// Greatest number of a pool; the least is 1 (profile).
const GREATEST_POOL: u32 = 99_999;

/// Greatest number of a performance return; the least is 1 (profile).
const GREATEST_RETURN: u32 = 999_999;

/// The number of a pool, 1 to 99,999 (profile). Clauses see the number.
#[derive(Clone, Copy, Debug, PartialEq, Eq, PartialOrd, Ord)]
pub struct PoolNumber {
    number: u32,
}

impl Model for PoolNumber {
    ghost use Rattle.std.specs.Prelude.{◌≡◌, ℕ, true};
    ghost use Rattle.work_ids.specs.Numbers.{is_pool_number};

    ghost Value = { ℕ };

    ghost view = { λ n. n.number };

    ghost invariant = { λ n. is_pool_number n.number ≡ true };

    ghost inverse = { λ number. record { number = number } };
}

impl PoolNumber {
    /// The number, where it is within the limits.
    pub fn from_u32(number: u32) -> Option<PoolNumber>
        ensures { result ≡ number_where is_pool_number number }
    {
        if 1 <= number && number <= GREATEST_POOL {
            Some(PoolNumber { number })
        } else {
            None
        }
    }

    /// The number that decimal digits without a leading zero spell, where it is within the limits (profile).
    pub fn from_text(text: &[u8]) -> Option<PoolNumber>
        ensures { result ≡ number_in_text is_pool_number text.now }
    {
        PoolNumber::from_u32(number_from_one(text, GREATEST_POOL)?)
    }

    /// The number as it is, 1 to 99,999.
    pub fn value(self) -> u32
        ensures value { result ≡ self }
        ensures limits { (1 ≤ self) × (self ≤ 99999) }
    {
        self.number
    }
}

/// The number of a performance return among its reporter's, 1 to 999,999 (profile). Clauses see the number.
#[derive(Clone, Copy, Debug, PartialEq, Eq, PartialOrd, Ord)]
pub struct ReturnNumber {
    number: u32,
}

impl Model for ReturnNumber {
    ghost use Rattle.std.specs.Prelude.{◌≡◌, ℕ, true};
    ghost use Rattle.work_ids.specs.Numbers.{is_return_number};

    ghost Value = { ℕ };

    ghost view = { λ n. n.number };

    ghost invariant = { λ n. is_return_number n.number ≡ true };

    ghost inverse = { λ number. record { number = number } };
}

impl ReturnNumber {
    /// The number, where it is within the limits.
    pub fn from_u32(number: u32) -> Option<ReturnNumber>
        ensures { result ≡ number_where is_return_number number }
    {
        if 1 <= number && number <= GREATEST_RETURN {
            Some(ReturnNumber { number })
        } else {
            None
        }
    }

    /// The number that decimal digits without a leading zero spell, where it is within the limits (profile).
    pub fn from_text(text: &[u8]) -> Option<ReturnNumber>
        ensures { result ≡ number_in_text is_return_number text.now }
    {
        ReturnNumber::from_u32(number_from_one(text, GREATEST_RETURN)?)
    }

    /// The number as it is, 1 to 999,999.
    pub fn value(self) -> u32
        ensures value { result ≡ self }
        ensures limits { (1 ≤ self) × (self ≤ 999999) }
    {
        self.number
    }
}
