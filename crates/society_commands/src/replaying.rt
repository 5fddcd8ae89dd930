//! A stream of bytes is served over a book in memory.
ghost use Rattle.std.specs.Prelude.{◌≡◌, ◌⊎◌};
ghost use Rattle.http_desk.specs.Serves.{KeepsTurns, NeitherFails};
ghost use Rattle.society_commands.specs.Replays.{Replays, BreaksOff};
ghost use Rattle.society_commands.specs.Troubles.{Tells};
ghost use Rattle.desk_connections.specs.Faults.{most_turns};

use crate::trouble::{Trouble, tell};
use desk_connections::TURNS;
use http_desk::{Counted, DeskFault, FaultKind, serve};
use share_rules::Office;
use society_core::Desk;
use society_tables::Tables;
use std::alloc::Global;
use std::io::{Read, Write};

/// Status of a stream that was served to its end.
pub const SERVED: u8 = 0;

/// Status of a stream that broke off.
pub const BROKEN_OFF: u8 = 1;

/// Serves what a reader gives at an office to which nothing has come, over tables in memory: the answers go to
/// `out`. Answers the exit status: 0 where the input was served to its end; 1 where the reader or the writer
/// failed, the turns ran out or memory was refused at the start, with one line on `err`.
pub fn replay<R: Read, W: Write, E: Write>(
    alloc: Global,
    office: &Office,
    reader: &mut Counted<R>,
    out: &mut Counted<W>,
    err: &mut Counted<E>,
) -> u8
    ensures status { (result ≡ 0) ⊎ (result ≡ 1) }
    // What was written are the texts of the answers to the requests that were read, in order, and of the end.
    ensures served { result ≡ 0 → Replays office.now R.remaining W.contents reader.old out.old out.new }
    // A stream breaks off only by a fault that has its cause, and its line tells it; the answers up to it are written as far as they could be.
    ensures broken_off { result ≡ 1
        → BreaksOff office.now R.remaining W.contents reader.old reader.new out.old out.new (Tells E.contents err.old err.new) }
    ensures quiet { result ≡ 0 → err.new ≡ err.old }
    // No failure is passed over, and each read was needed.
    ensures kept { result ≡ 0 → NeitherFails reader.old reader.new out.old out.new }
    ensures turns { KeepsTurns R.remaining reader.old reader.new most_turns }
{
    let Ok(tables) = Tables::in_memory(alloc, office) else {
        let fault = DeskFault {
            kind: FaultKind::Memory,
            requests: 0,
        };
        return tell(err, Trouble::Stream(fault));
    };
    let mut desk = Desk::new(tables);
    match serve(alloc, &mut desk, reader, out, TURNS) {
        Ok(_) => SERVED,
        Err(fault) => tell(err, Trouble::Stream(fault)),
    }
}
