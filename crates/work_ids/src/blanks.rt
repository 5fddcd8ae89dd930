//! Blanks (0x20) round an identifier and behind it.
ghost use Rattle.std.specs.Prelude.{◌≡◌, ◌≤◌, length};
ghost use Rattle.std.specs.List.{list_all};
ghost use Rattle.work_ids.specs.Blanks.{fill, is_blank_byte, trimmed, without_leading_blanks, without_trailing_blanks};

/// The bytes without the blanks (0x20) at their end.
pub fn without_trailing_blanks(bytes: &[u8]) -> &[u8]
    ensures { result.now ≡ without_trailing_blanks bytes.now }
{
    let mut end = bytes.len();
    while end > 0 && bytes[end - 1] == b' ' {
        end -= 1;
    }
    &bytes[..end]
}

// The bytes without the blanks in front.
fn without_leading_blanks(bytes: &[u8]) -> &[u8]
    ensures { result.now ≡ without_leading_blanks bytes.now }
{
    let mut start = 0;
    while start < bytes.len() && bytes[start] == b' ' {
        start += 1;
    }
    &bytes[start..]
}

/// The bytes without the blanks at both ends.
#[tactic(auto, unfolding(crate::specs::Blanks::trimmed))]
pub fn trim(bytes: &[u8]) -> &[u8]
    ensures { result.now ≡ trimmed bytes.now }
{
    without_leading_blanks(without_trailing_blanks(bytes))
}

/// Whether the byte is a blank.
pub fn is_blank_byte(byte: u8) -> bool
    ensures { result ≡ is_blank_byte byte }
{
    byte == b' '
}

/// Whether each byte is a blank.
pub fn are_blank(bytes: &[u8]) -> bool
    ensures { result ≡ list_all is_blank_byte bytes.now }
{
    bytes.iter().all(|byte| is_blank_byte(*byte))
}

/// The bytes, at most `WIDTH` of them, filled with blanks to `WIDTH`.
pub fn fill<const WIDTH: usize>(bytes: &[u8]) -> [u8; WIDTH]
    requires { length bytes.now ≤ WIDTH }
    ensures { result ≡ fill WIDTH bytes.now }
{
    let mut filled = [b' '; WIDTH];
    filled[..bytes.len()].copy_from_slice(bytes);
    filled
}
