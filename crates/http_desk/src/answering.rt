//! The next request of a connection is answered: a transmission's body is fed while it comes, any other is read first.
ghost use Rattle.std.specs.Prelude.{◌≡◌, ◌+◌, drop, Ok, IfOk, IfErr, OnOk, OnErr};
ghost use Rattle.society_core.specs.Requests.{reply_of};
ghost use Rattle.http_desk.specs.Answering.{CameNext, ComesNext, IsLeftIn, IsReadyNext, is_end};
ghost use Rattle.http_desk.specs.Counted.{empty_reads_of, failures_of, MeetsEnd};
ghost use Rattle.http_desk.specs.Head.{HasHead};
ghost use Rattle.http_desk.specs.Input.{unread, FailsBy};
ghost use Rattle.http_desk.specs.Outbox.{SendsTo};
ghost use Rattle.http_desk.specs.Room.{IsReady};
ghost use Rattle.http_desk.specs.Serves.{IsAnswered};
ghost use Rattle.http_text.specs.Told.{IsReadyToSend, told_reply};
ghost use Rattle.http_desk.specs.Upcoming.{HasPart};
ghost use Rattle.http_desk.specs.Asks.{AsksFor, PartAsks};

use crate::counted::Counted;
use crate::fault::FaultKind;
use crate::feeding::{Feeding, feed_request};
use crate::head::Head;
use crate::room::Room;
use crate::upcoming::{Upcoming, next_answered, whole_request};
use cwr_files::FileReader;
use http_text::{Asked, End, FedPut, Told, Wanted, WithBody, ask, request_with, tell, wanted_for};
use society_core::{Answer, Desk, Refusal, Store, TransmissionKey};
use std::alloc::Global;
use std::io::{Read, Write};

/// A request that was answered at the desk.
#[derive(Drop)]
pub(crate) struct Answered {
    /// What is told of it.
    pub told: Told,
    /// Whether the connection ends after the answer.
    pub closes: bool,
}

/// What came next on a connection.
#[derive(Drop)]
pub(crate) enum Next {
    /// A request, which was answered.
    Request(Answered),
    /// The end of the connection.
    Ended(End),
}

// Answers the request at the front of these bytes.
fn answer_front<S: Store>(
    alloc: Global,
    desk: &mut Desk<S>,
    bytes: &[u8],
    head: &Head,
    wanted: WithBody,
) -> Answer
    requires part { HasPart bytes.now head.now }
    requires asks { PartAsks (S.state desk.old).office.society bytes.now head.now (Wanted.Whole wanted) }
    ensures { IsAnswered S.state desk.old desk.new bytes.now head.now (reply_of result) }
{
    let body = &bytes[head.length..head.length + head.body as usize];
    let Ok(request) = request_with(alloc, wanted, body) else {
        return Answer::Refused(Refusal::Unavailable);
    };
    ask(alloc, desk, Asked::Whole(request))
}

// Answers the request at the front of the bytes and takes it.
fn answer_next<S: Store>(
    alloc: Global,
    desk: &mut Desk<S>,
    room: &mut Room,
    head: &Head,
    wanted: WithBody,
) -> Told
    requires ready { IsReady room.old }
    requires part { HasPart (unread room.old.input) head.now }
    requires asks { PartAsks (S.state desk.old).office.society (unread room.old.input) head.now
        (Wanted.Whole wanted) }
    ensures step { IsAnswered S.state desk.old desk.new (unread room.old.input) head.now
        (told_reply result) }
    ensures answered { IsReadyToSend result }
    ensures taken { unread room.new.input
        ≡ drop (head.now.length + head.now.body) (unread room.old.input) }
    ensures turns { room.new.input.turns ≡ room.old.input.turns }
    ensures outbox { room.new.outbox ≡ room.old.outbox }
    ensures ready { IsReady room.new }
{
    let bytes = room.input.unread();
    let answer = answer_front(alloc, desk, bytes, head, wanted);
    room.input.take(head.length + head.body as usize);
    tell(alloc, answer)
}

// Answers the request whose head stands at the front, once it is whole.
fn answer_whole<S: Store, R: Read>(
    alloc: Global,
    desk: &mut Desk<S>,
    reader: &mut Counted<R>,
    room: &mut Room,
    head: Head,
    wanted: WithBody,
) -> Result<Next, FaultKind>
    requires ready { IsReady room.old }
    requires head { HasHead (unread room.old.input) head }
    requires asks { AsksFor (S.state desk.old).office.society (unread room.old.input) head
        (Wanted.Whole wanted) }
    ensures comes { ComesNext S.state R.remaining desk.old desk.new reader.old reader.new
        room.old.input room.new.input result }
    ensures answered { IfOk result IsReadyNext }
    ensures met { IfOk result (λ next. MeetsEnd (is_end next) (empty_reads_of reader.old) (empty_reads_of reader.new)) }
    ensures unmet { OnErr result (empty_reads_of reader.new ≡ empty_reads_of reader.old) }
    ensures kept { OnOk result (failures_of reader.new ≡ failures_of reader.old) }
    ensures err { IfErr result (λ kind.
        FailsBy kind room.new.input.turns (failures_of reader.old) (failures_of reader.new)) }
    ensures outbox { room.new.outbox ≡ room.old.outbox }
    ensures ready { IsReady room.new }
{
    match whole_request(reader, &mut room.input, head) {
        Ok(Upcoming::Request(whole)) => {
            let told = answer_next(alloc, desk, room, &whole, wanted);
            Ok(Next::Request(Answered {
                told,
                closes: whole.closes,
            }))
        }
        Ok(Upcoming::Ended(end)) => Ok(Next::Ended(end)),
        Err(kind) => Err(kind),
    }
}

// Answers the put of a transmission whose head stands at the front; its body is fed while it comes.
fn answer_fed<S: Store, R: Read>(
    alloc: Global,
    desk: &mut Desk<S>,
    reader: &mut Counted<R>,
    room: &mut Room,
    head: &Head,
    key: TransmissionKey,
) -> Result<Next, FaultKind>
    requires ready { IsReady room.old }
    requires head { HasHead (unread room.old.input) head.now }
    requires asks { AsksFor (S.state desk.old).office.society (unread room.old.input) head.now
        (Wanted.Fed key) }
    ensures comes { ComesNext S.state R.remaining desk.old desk.new reader.old reader.new
        room.old.input room.new.input result }
    ensures answered { IfOk result IsReadyNext }
    ensures met { IfOk result (λ next. MeetsEnd (is_end next) (empty_reads_of reader.old) (empty_reads_of reader.new)) }
    ensures unmet { OnErr result (empty_reads_of reader.new ≡ empty_reads_of reader.old) }
    ensures kept { OnOk result (failures_of reader.new ≡ failures_of reader.old) }
    ensures err { IfErr result (λ kind.
        FailsBy kind room.new.input.turns (failures_of reader.old) (failures_of reader.new)) }
    ensures outbox { room.new.outbox ≡ room.old.outbox }
    ensures ready { IsReady room.new }
{
    let mut sink = FileReader::new(alloc, &key.sender);
    match feed_request(reader, &mut room.input, head, &mut sink) {
        Ok(Feeding::Whole) => {
            let put = FedPut { key, reader: sink };
            let answer = ask(alloc, desk, Asked::Fed(put));
            Ok(Next::Request(Answered {
                told: tell(alloc, answer),
                closes: head.closes,
            }))
        }
        Ok(Feeding::Cut) => Ok(Next::Ended(End::Bad)),
        Ok(Feeding::Refused) => Ok(Next::Ended(End::Busy)),
        Err(kind) => Err(kind),
    }
}

// What the head at the front asks of the office of a society.
fn wanted_at_front(society: u16, room: &mut Room, head: &Head) -> Wanted
    requires ready { IsReady room.old }
    requires head { HasHead (unread room.old.input) head.now }
    ensures asks { AsksFor society (unread room.old.input) head.now result }
    ensures input { room.new.input ≡ room.old.input }
    ensures outbox { room.new.outbox ≡ room.old.outbox }
    ensures ready { IsReady room.new }
{
    let target = head.target.of(room.input.unread());
    wanted_for(society, &room.router, &mut room.parameter, head.put, target)
}

// Answers the request whose head stands at the front.
fn answer_head<S: Store, R: Read>(
    alloc: Global,
    desk: &mut Desk<S>,
    reader: &mut Counted<R>,
    room: &mut Room,
    head: Head,
) -> Result<Next, FaultKind>
    requires ready { IsReady room.old }
    requires head { HasHead (unread room.old.input) head }
    ensures comes { ComesNext S.state R.remaining desk.old desk.new reader.old reader.new
        room.old.input room.new.input result }
    ensures answered { IfOk result IsReadyNext }
    ensures met { IfOk result (λ next. MeetsEnd (is_end next) (empty_reads_of reader.old) (empty_reads_of reader.new)) }
    ensures unmet { OnErr result (empty_reads_of reader.new ≡ empty_reads_of reader.old) }
    ensures kept { OnOk result (failures_of reader.new ≡ failures_of reader.old) }
    ensures err { IfErr result (λ kind.
        FailsBy kind room.new.input.turns (failures_of reader.old) (failures_of reader.new)) }
    ensures outbox { room.new.outbox ≡ room.old.outbox }
    ensures ready { IsReady room.new }
{
    let society = desk.office().society;
    match wanted_at_front(society, room, &head) {
        Wanted::Fed(key) => answer_fed(alloc, desk, reader, room, &head, key),
        Wanted::Whole(wanted) => answer_whole(alloc, desk, reader, room, head, wanted),
    }
}

/// Answers the next request. Before more bytes are read for it, the answers that wait are written. The desk is as before
/// where no request came.
pub(crate) fn answer_upcoming<S: Store, R: Read, W: Write>(
    alloc: Global,
    desk: &mut Desk<S>,
    reader: &mut Counted<R>,
    writer: &mut Counted<W>,
    room: &mut Room,
) -> Result<Next, FaultKind>
    requires ready { IsReady room.old }
    ensures comes { IfOk result (CameNext S.state R.remaining desk.old desk.new reader.old reader.new
        room.old.input room.new.input) }
    ensures stops { IfErr result (IsLeftIn S.state R.remaining W.contents desk.old desk.new reader.old reader.new
        writer.old writer.new room.old room.new) }
    ensures sends { OnOk result (SendsTo W.contents writer.old writer.new room.old.outbox room.new.outbox) }
    ensures answered { IfOk result IsReadyNext }
    ensures met { IfOk result (λ next. MeetsEnd (is_end next) (empty_reads_of reader.old) (empty_reads_of reader.new)) }
    ensures unmet { OnErr result (empty_reads_of reader.new ≡ empty_reads_of reader.old) }
    ensures kept { OnOk result (failures_of reader.new ≡ failures_of reader.old) }
    ensures kept_writer { OnOk result (failures_of writer.new ≡ failures_of writer.old) }
    ensures ready { IsReady room.new }
{
    match next_answered(reader, writer, &mut room.input, &mut room.outbox) {
        Ok(Upcoming::Request(head)) => answer_head(alloc, desk, reader, room, head),
        Ok(Upcoming::Ended(end)) => Ok(Next::Ended(end)),
        Err(kind) => Err(kind),
    }
}
