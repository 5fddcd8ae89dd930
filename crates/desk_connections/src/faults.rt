//! What is said of a stream that broke off, and how much one may be read.
ghost use Rattle.std.specs.Prelude.{◌≡◌};
ghost use Rattle.desk_connections.specs.Connections.{Prints};
ghost use Rattle.desk_connections.specs.Faults.{fault_name, fault_text};

use crate::printing::{print, print_number};
use http_desk::{Counted, DeskFault, FaultKind};
use std::io::Write;

/// Most reads of one stream.
pub const TURNS: u64 = 100_000_000;

/// Prints what a fault is called, and after how many requests it came.
pub fn print_fault<W: Write>(out: &mut Counted<W>, fault: &DeskFault)
    ensures { Prints W.contents out.old out.new (fault_text fault.now) }
{
    print(out, fault_name(fault.kind).as_bytes());
    print(out, b" fault after ");
    print_number(out, fault.requests);
}

// What a fault is called.
fn fault_name(kind: FaultKind) -> &'static str
    ensures { result.now ≡ fault_name kind }
{
    match kind {
        FaultKind::Read => "read",
        FaultKind::Write => "write",
        FaultKind::Turns => "turns",
        FaultKind::Memory => "memory",
    }
}
