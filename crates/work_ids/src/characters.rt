//! The characters of identifiers.
ghost use Rattle.std.specs.Prelude.{◌≡◌, ◌==◌, map};
ghost use Rattle.std.specs.List.{list_all};
ghost use Rattle.work_ids.specs.Characters.{capital, is_capital, is_digit, is_capital_or_digit, is_printable};

// Whether the byte is one of A-Z.
fn is_capital(byte: u8) -> bool
    ensures { result ≡ is_capital byte }
{
    b'A' <= byte && byte <= b'Z'
}

/// Whether each byte is one of A-Z.
pub fn are_capitals(bytes: &[u8]) -> bool
    ensures { result ≡ list_all is_capital bytes.now }
{
    bytes.iter().all(|byte| is_capital(*byte))
}

// Whether the byte is one of 0-9.
fn is_digit(byte: u8) -> bool
    ensures { result ≡ is_digit byte }
{
    b'0' <= byte && byte <= b'9'
}

/// Whether each byte is one of 0-9.
pub fn are_digits(bytes: &[u8]) -> bool
    ensures { result ≡ list_all is_digit bytes.now }
{
    bytes.iter().all(|byte| is_digit(*byte))
}

/// A small letter as the capital, any other byte as it is.
pub fn capital(byte: u8) -> u8
    ensures { result ≡ capital byte }
{
    if b'a' <= byte && byte <= b'z' {
        byte - b'a' + b'A'
    } else {
        byte
    }
}

/// Makes each small letter the capital.
pub(crate) fn make_capitals(characters: &mut [u8])
    ensures { characters.new ≡ map capital characters.old }
{
    for character in characters.iter_mut() {
        *character = capital(*character);
    }
}

// Whether the byte is one of A-Z and 0-9.
fn is_capital_or_digit(byte: u8) -> bool
    ensures { result ≡ is_capital_or_digit byte }
{
    is_capital(byte) || is_digit(byte)
}

/// Whether each byte is one of A-Z and 0-9.
pub fn are_capitals_or_digits(bytes: &[u8]) -> bool
    ensures { result ≡ list_all is_capital_or_digit bytes.now }
{
    bytes.iter().all(|byte| is_capital_or_digit(*byte))
}

/// Whether the byte is a hyphen.
pub(crate) fn is_hyphen(byte: u8) -> bool
    ensures { result ≡ (byte == 45) }
{
    byte == b'-'
}

// Whether the byte is printable ASCII.
fn is_printable(byte: u8) -> bool
    ensures { result ≡ is_printable byte }
{
    b' ' <= byte && byte <= b'~'
}

/// Whether each byte is printable ASCII, 0x20 to 0x7E.
pub fn are_printable(bytes: &[u8]) -> bool
    ensures { result ≡ list_all is_printable bytes.now }
{
    bytes.iter().all(|byte| is_printable(*byte))
}
