//! What is printed, piece by piece, to a writer whose failures are counted.
ghost use Rattle.std.specs.Prelude.{decimal};
ghost use Rattle.desk_connections.specs.Connections.{Prints};

use http_desk::Counted;
use itoa::Buffer;
use std::io::Write;

/// Prints bytes; those that are not taken are passed over.
pub fn print<W: Write>(out: &mut Counted<W>, bytes: &[u8])
    ensures { Prints W.contents out.old out.new bytes.now }
{
    let _ = out.write_all(bytes);
}

/// Prints a number in decimal digits.
pub fn print_number<W: Write>(out: &mut Counted<W>, number: u128)
    ensures { Prints W.contents out.old out.new (decimal number) }
{
    let mut digits = Buffer::new();
    print(out, digits.format(number).as_bytes());
}
