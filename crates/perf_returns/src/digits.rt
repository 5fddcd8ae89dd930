//! Numbers of at most so many digits.
ghost use Rattle.std.specs.Prelude.{◌≡◌, ◌≤◌};
ghost use Rattle.perf_returns.specs.Numbers.{number_of_width};

use work_ids::number;

/// The number that 1 to `width` decimal digits spell.
pub fn number_of_width(digits: &[u8], width: usize) -> Option<u32>
    requires { width ≤ 9 }
    ensures { result ≡ number_of_width width digits.now }
{
    if digits.len() > width {
        return None;
    }
    Some(number(digits)? as u32)
}
