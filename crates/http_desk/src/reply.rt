//! Answers and endings, put among the texts that are written together.
ghost use Rattle.std.specs.Prelude.{◌≡◌, ◌++◌, OnOk, OnErr};
ghost use Rattle.http_desk.specs.Counted.{failures_of};
ghost use Rattle.http_desk.specs.Outbox.{waiting, Emits, PutsText};
ghost use Rattle.society_core.specs.State.{Rises};
ghost use Rattle.http_text.specs.Told.{HasText, IsReadyToSend, told_text};
ghost use Rattle.society_core.specs.Requests.{showing_of};
ghost use Rattle.http_text.specs.Text.{arrival_status, receipt_status, refusal_status, refused_text, showing_text, showing_type, ending};

use crate::counted::{Counted, NotWritten};
use crate::outbox::Outbox;
use http_text::{ContentType, End, ShortBody, Status, Told};
use society_core::{Answer, Arrival, Receipt, Refusal, Showing, Standing};
use std::io::Write;

// The status of an arrival.
fn arrival_status(arrival: Arrival) -> Status
    ensures { result ≡ arrival_status arrival }
{
    if arrival.known {
        return Status::Done;
    }
    match arrival.standing {
        Standing::Applied => Status::Created,
        Standing::Held => Status::Accepted,
    }
}

// The status of a receipt.
fn receipt_status(receipt: Receipt) -> Status
    ensures { result ≡ receipt_status receipt }
{
    match receipt {
        Receipt::New => Status::Created,
        Receipt::Repeated => Status::Done,
    }
}

// The status of a refusal.
fn refusal_status(refusal: &Refusal) -> Status
    ensures { result ≡ refusal_status refusal.now }
{
    match refusal {
        Refusal::Reused => Status::Conflict,
        Refusal::File(_) => Status::Unprocessable,
        Refusal::Ended { .. } => Status::Conflict,
        Refusal::Segment { .. } => Status::Conflict,
        Refusal::End(_) => Status::Unprocessable,
        Refusal::Csv(_) => Status::Unprocessable,
        Refusal::Order(_) => Status::Unprocessable,
        Refusal::Cut { .. } => Status::Conflict,
        Refusal::ReturnUnknown(_) => Status::Conflict,
        Refusal::ReturnPaid { .. } => Status::Conflict,
        Refusal::Unknown => Status::NotFound,
        Refusal::Unavailable => Status::Unavailable,
    }
}

// The content type of what is shown.
fn showing_type(showing: &Showing) -> ContentType
    ensures { result ≡ showing_type (showing_of showing.now) }
{
    match showing {
        Showing::Acknowledgement(_) => ContentType::File,
        Showing::Credits(_) => ContentType::Table,
        _ => ContentType::Json,
    }
}

// The bytes of what is shown: those of an acknowledgement as it was looked up, else the text that was made.
fn shown_bytes<'a>(showing: &'a Showing, text: &'a [u8]) -> &'a [u8]
    requires { HasText (showing_of showing.now) text.now }
    ensures { result.now ≡ showing_text (showing_of showing.now) }
{
    match showing {
        Showing::Acknowledgement(bytes) => bytes,
        _ => text,
    }
}

// Puts a refusal behind the texts that wait.
fn put_refusal<W: Write>(
    writer: &mut Counted<W>,
    outbox: &mut Outbox,
    body: &mut ShortBody,
    refusal: &Refusal,
    close: bool,
) -> Result<(), NotWritten>
    ensures gathers { PutsText W.contents result writer.old writer.new outbox.old outbox.new
        (refused_text refusal.now close) }
    ensures kept { OnOk result (failures_of writer.new ≡ failures_of writer.old) }
    ensures err { OnErr result (Rises (failures_of writer.old) (failures_of writer.new)) }
{
    body.set_refusal(refusal);
    let status = refusal_status(refusal);
    outbox.put_answer(writer, status, ContentType::Json, body.bytes(), close)
}

/// Puts the answer to one request behind the texts that wait. A short body is made in the room that is given.
pub(crate) fn put_reply<W: Write>(
    writer: &mut Counted<W>,
    outbox: &mut Outbox,
    body: &mut ShortBody,
    told: &Told,
    close: bool,
) -> Result<(), NotWritten>
    requires ready { IsReadyToSend told.now }
    ensures gathers { PutsText W.contents result writer.old writer.new outbox.old outbox.new
        (told_text told.now close) }
    ensures kept { OnOk result (failures_of writer.new ≡ failures_of writer.old) }
    ensures err { OnErr result (Rises (failures_of writer.old) (failures_of writer.new)) }
{
    match &told.answer {
        Answer::Arrived(arrival) => {
            body.set_arrival(*arrival);
            let status = arrival_status(*arrival);
            outbox.put_answer(writer, status, ContentType::Json, body.bytes(), close)
        }
        Answer::Ended(receipt, front) => {
            body.set_ended(*front);
            let status = receipt_status(*receipt);
            outbox.put_answer(writer, status, ContentType::Json, body.bytes(), close)
        }
        Answer::Stored(receipt) => {
            body.set_stored();
            let status = receipt_status(*receipt);
            outbox.put_answer(writer, status, ContentType::Json, body.bytes(), close)
        }
        Answer::Closed(receipt, pool) => {
            body.set_closed(*pool);
            let status = receipt_status(*receipt);
            outbox.put_answer(writer, status, ContentType::Json, body.bytes(), close)
        }
        Answer::Showed(showing) => {
            let text = shown_bytes(showing, &told.body);
            outbox.put_answer(writer, Status::Done, showing_type(showing), text, close)
        }
        Answer::Refused(refusal) => put_refusal(writer, outbox, body, refusal, close),
    }
}

// Puts what is due at the end of a connection behind the texts that wait.
fn put_end<W: Write>(
    writer: &mut Counted<W>,
    outbox: &mut Outbox,
    end: End,
) -> Result<(), NotWritten>
    ensures gathers { PutsText W.contents result writer.old writer.new outbox.old outbox.new (ending end) }
    ensures kept { OnOk result (failures_of writer.new ≡ failures_of writer.old) }
    ensures err { OnErr result (Rises (failures_of writer.old) (failures_of writer.new)) }
{
    match end {
        End::Quiet | End::Closed => Ok(()),
        End::Bad => {
            let body = b"{\"error\":\"request\"}";
            outbox.put_answer(writer, Status::BadRequest, ContentType::Json, body, true)
        }
        End::TooLarge => {
            let body = b"{\"error\":\"size\"}";
            outbox.put_answer(writer, Status::TooLarge, ContentType::Json, body, true)
        }
        End::Busy => {
            let body = b"{\"error\":\"busy\"}";
            outbox.put_answer(writer, Status::Unavailable, ContentType::Json, body, true)
        }
    }
}

/// Writes all that waits, and behind it what is due at the end of a connection.
pub(crate) fn write_end<W: Write>(
    writer: &mut Counted<W>,
    outbox: &mut Outbox,
    end: End,
) -> Result<(), NotWritten>
    ensures wrote { Emits W.contents result writer.old writer.new (waiting outbox.old ++ ending end) }
    ensures kept { OnOk result (failures_of writer.new ≡ failures_of writer.old) }
    ensures err { OnErr result (Rises (failures_of writer.old) (failures_of writer.new)) }
{
    let Ok(()) = put_end(writer, outbox, end) else {
        return Err(NotWritten);
    };
    outbox.flush(writer)
}
