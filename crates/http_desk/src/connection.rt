//! A connection is served: requests are read, answered in turn, and their answers written.
ghost use Rattle.std.specs.Prelude.{◌≡◌, ◌≢◌, ◌<◌, ◌++◌, ◌^◌, [], IfOk, IfErr, OnOk, OnErr, IsTrue};
ghost use Rattle.society_core.specs.State.{Rises};
ghost use Rattle.http_desk.specs.Counted.{failures_of};
ghost use Rattle.http_desk.specs.Input.{unread};
ghost use Rattle.http_desk.specs.Outbox.{waiting, PutsText};
ghost use Rattle.http_desk.specs.Room.{IsReady};
ghost use Rattle.http_desk.specs.Serves.{ClosesBy, FailsToClose, IsServed, IsGivenUp, KeepsTurns, NeitherFails};
ghost use Rattle.http_text.specs.Text.{ending};
ghost use Rattle.http_text.specs.Told.{IsReadyToSend, told_text};

use crate::answering::{Next, answer_upcoming};
use crate::counted::{Counted, NotWritten};
use crate::fault::{DeskFault, FaultKind};
use crate::outbox::Outbox;
use crate::reply::{put_reply, write_end};
use crate::room::{Room, make_room};
use http_text::{End, Told};
use society_core::{Desk, Store};
use std::alloc::Global;
use std::io::{Read, Write};

/// A connection that was served to its end.
#[derive(Clone, Copy, Debug, PartialEq, Eq)]
pub struct Served {
    /// Requests that were answered.
    pub requests: u128,
}

// Puts an answer behind the texts that wait. A call of its own for the proof: it keeps what else is in the room.
fn send<W: Write>(
    writer: &mut Counted<W>,
    room: &mut Room,
    told: &Told,
    close: bool,
) -> Result<(), NotWritten>
    requires ready { IsReady room.old }
    requires told { IsReadyToSend told.now }
    ensures gathers { PutsText W.contents result writer.old writer.new room.old.outbox room.new.outbox
        (told_text told.now close) }
    ensures kept { OnOk result (failures_of writer.new ≡ failures_of writer.old) }
    ensures err { OnErr result (Rises (failures_of writer.old) (failures_of writer.new)) }
    ensures input { room.new.input ≡ room.old.input }
    ensures ready { IsReady room.new }
{
    put_reply(writer, &mut room.outbox, &mut room.body, told, close)
}

// Writes what waits, and what is due at the end of a connection that answered so many requests.
fn close_with<W: Write>(
    writer: &mut Counted<W>,
    outbox: &mut Outbox,
    end: End,
    requests: u128,
) -> Result<Served, DeskFault>
    ensures served { IfOk result (ClosesBy W.contents writer.old writer.new requests
        (waiting outbox.old ++ ending end)) }
    ensures kept { OnOk result (failures_of writer.new ≡ failures_of writer.old) }
    ensures err { IfErr result (FailsToClose W.contents writer.old writer.new requests
        (waiting outbox.old ++ ending end)) }
{
    match write_end(writer, outbox, end) {
        Ok(()) => Ok(Served { requests }),
        Err(_) => Err(DeskFault {
            kind: FaultKind::Write,
            requests,
        }),
    }
}

/// Serves one connection: reads requests, answers each at the desk in turn and writes its answer, until the bytes end,
/// a request ends the connection, or bytes are no request. Answers are written together, before each further read and at
/// the end. A transmission's body is fed to its reader while it comes; a faulty one is read to its end like any other. A
/// turn is one read that gives bytes, at most 16,384. It reads only where what was read is not settled, and not again after a read that
/// gave nothing. No failure is passed over: it is given up by `Read` and `Write` where that side
/// failed, by `Turns` where all turns gave bytes and a further read was needed, and by `Memory` before the first read
/// alone; the book is then that of the requests counted in the fault.
pub fn serve<S: Store, R: Read, W: Write>(
    alloc: Global,
    desk: &mut Desk<S>,
    reader: &mut Counted<R>,
    writer: &mut Counted<W>,
    turns: u64,
) -> Result<Served, DeskFault>
    ensures kept { OnOk result (NeitherFails reader.old reader.new writer.old writer.new) }
    // What was read are requests with an end, and what was written is their answers in order and the text of the
    // end, and nothing else; as many requests as are told are a run from the old book to the new.
    ensures served { IfOk result
        (IsServed S.state R.remaining W.contents desk.old desk.new reader.old writer.old writer.new) }
    // Up to a fault: what was read begins with the requests that were answered; and the fault's cause.
    ensures err { IfErr result (IsGivenUp S.state R.remaining W.contents
        desk.old desk.new reader.old reader.new writer.old writer.new turns) }
    ensures memory { IfErr result (λ fault. fault.kind ≡ FaultKind.Memory → desk.new ≡ desk.old) }

    // However it ends.
    ensures turns { KeepsTurns R.remaining reader.old reader.new turns }
    ensures office { (S.state desk.new).office ≡ (S.state desk.old).office }
    ensures clean { IsTrue (S.state desk.new).is_clean → IsTrue (S.state desk.old).is_clean }
{
    match make_room(alloc, turns) {
        Ok(mut room) => serve_in(alloc, desk, reader, writer, &mut room),
        Err(_) => Err(DeskFault {
            kind: FaultKind::Memory,
            requests: 0,
        }),
    }
}

// Serves one connection in the room that was taken for it.
fn serve_in<S: Store, R: Read, W: Write>(
    alloc: Global,
    desk: &mut Desk<S>,
    reader: &mut Counted<R>,
    writer: &mut Counted<W>,
    room: &mut Room,
) -> Result<Served, DeskFault>
    requires ready { IsReady room.old }
    requires unread { unread room.old.input ≡ [] }
    requires waiting { waiting room.old.outbox ≡ [] }
    requires turns { room.old.input.turns < 2 ^ 64 }
    ensures kept { OnOk result (NeitherFails reader.old reader.new writer.old writer.new) }
    ensures served { IfOk result
        (IsServed S.state R.remaining W.contents desk.old desk.new reader.old writer.old writer.new) }
    ensures err { IfErr result (IsGivenUp S.state R.remaining W.contents
        desk.old desk.new reader.old reader.new writer.old writer.new room.old.input.turns) }
    ensures memory { IfErr result (λ fault. fault.kind ≢ FaultKind.Memory) }
    ensures turns { KeepsTurns R.remaining reader.old reader.new room.old.input.turns }
{
    let mut requests = 0u128;
    loop {
        let answered = match answer_upcoming(alloc, desk, reader, writer, room) {
            Ok(Next::Request(answered)) => answered,
            Ok(Next::Ended(end)) => return close_with(writer, &mut room.outbox, end, requests),
            Err(kind) => return Err(DeskFault { kind, requests }),
        };
        requests += 1;
        let Ok(()) = send(writer, room, &answered.told, answered.closes) else {
            return Err(DeskFault {
                kind: FaultKind::Write,
                requests,
            });
        };
        if answered.closes {
            return close_with(writer, &mut room.outbox, End::Closed, requests);
        }
    }
}
