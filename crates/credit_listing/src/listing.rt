//! What orders would credit, listed.
ghost use Rattle.std.specs.Prelude.{◌≡◌, IfErr, IfOk, Ok, OnOk, is_ok, true};
ghost use Rattle.std.specs.Io.KnownBytes.{Appends};
ghost use Rattle.http_desk.specs.Counted.{failures_of, inner_of};
ghost use Rattle.society_book.specs.Steps.{Looks};
ghost use Rattle.society_rows.specs.Between.{Within};
ghost use Rattle.credit_listing.specs.Answered.{EndsListing, IsWriteFault, TellsAnswer};
ghost use Rattle.credit_listing.specs.Rows.{shares_text};

use crate::answering::answer_line;
use crate::lines::next_line;
use crate::refusal_line::tell_refusal;
use crate::rows::{columns_text, rows_text};
use http_desk::{Counted, DeskFault, FaultKind, Input};
use order_credits::RecordingShare;
use share_rules::Office;
use society_core::Refusal;
use society_rows::RowFault;
use sqlite::{Alter, Transaction};
use std::alloc::Global;
use std::io::{Read, Write};

/// Reads of a listing: none is ever too many.
const READS: u64 = u64::MAX;

// Writes the rows of an order.
fn write_rows<W: Write>(
    alloc: Global,
    number: u64,
    shares: &[RecordingShare],
    out: &mut Counted<W>,
) -> Result<(), FaultKind>
    ensures rows { OnOk result (Appends (W.contents (inner_of out.old)) (W.contents (inner_of out.new)) (shares_text number shares.now)) }
    ensures kept { OnOk result (failures_of out.new ≡ failures_of out.old) }
    ensures failed { IfErr result (λ kind. IsWriteFault kind out.old out.new) }
{
    let Ok(text) = rows_text(alloc, number, shares) else {
        return Err(FaultKind::Memory);
    };
    match out.write_all(&text) {
        Ok(()) => Ok(()),
        Err(_) => Err(FaultKind::Write),
    }
}

// Writes the answer to an order: its rows, or a line on `err` that says why it is refused. Whether it is rows.
fn write_answer<W: Write, E: Write>(
    alloc: Global,
    number: u64,
    answer: Result<Vec<RecordingShare>, Refusal>,
    out: &mut Counted<W>,
    err: &mut Counted<E>,
) -> Result<bool, FaultKind>
    ensures tells { OnOk result (TellsAnswer W.contents out.old out.new E.contents err.old err.new number answer) }
    ensures rows { IfOk result (λ rows. rows ≡ is_ok answer) }
    ensures quiet { result ≡ Ok true → err.new ≡ err.old }
    ensures kept { OnOk result (failures_of out.new ≡ failures_of out.old) }
    ensures failed { IfErr result (λ kind. IsWriteFault kind out.old out.new × (err.new ≡ err.old)) }
{
    match answer {
        Ok(shares) => {
            write_rows(alloc, number, &shares, out)?;
            Ok(true)
        }
        Err(refusal) => {
            tell_refusal(err, number, &refusal);
            Ok(false)
        }
    }
}

/// Lists what orders would credit that are read from lines, one a line: writes the columns, then for each order its rows, or a line on `err`
/// that says why it is refused. Answers whether all were answered by rows, or, where the reader or the writer failed or memory was
/// refused, after how many orders that was.
pub fn list_credits<S: Alter, R: Read, W: Write, E: Write>(
    alloc: Global,
    tx: &mut Transaction<'_, S>,
    office: &Office,
    reader: &mut Counted<R>,
    out: &mut Counted<W>,
    err: &mut Counted<E>,
) -> Result<Result<bool, DeskFault>, RowFault>
    ensures looks { Within S.Store tx.old tx.new Looks result
        (EndsListing office.now R.remaining W.contents E.contents reader.old reader.new out.old out.new err.old err.new) }
    ensures quiet { IfOk result (λ listed. listed ≡ Ok true → err.new ≡ err.old) }
{
    let (Ok(columns), Ok(mut input)) = (columns_text(alloc), Input::new(alloc, READS)) else {
        return Ok(Err(broken(FaultKind::Memory, 0)));
    };
    let Ok(()) = out.write_all(&columns) else {
        return Ok(Err(broken(FaultKind::Write, 0)));
    };
    let mut all = true;
    for done in 0..u64::MAX {
        let line = match next_line(&mut input, reader) {
            Ok(line) => line,
            Err(kind) => return Ok(Err(broken(kind, done))),
        };
        if line.length == 0 {
            return Ok(Ok(all));
        }
        let answer = answer_line(alloc, tx, office, &input.unread()[..line.length])?;
        match write_answer(alloc, done + 1, answer, out, err) {
            Ok(rows) => all &= rows,
            Err(kind) => return Ok(Err(broken(kind, done))),
        }
        input.take(line.length);
        if line.is_last {
            return Ok(Ok(all));
        }
    }
    Ok(Err(broken(FaultKind::Turns, u64::MAX)))
}

// That a listing broke off after so many orders.
fn broken(kind: FaultKind, orders: u64) -> DeskFault
    ensures { (result.kind ≡ kind) × (result.requests ≡ orders) }
{
    DeskFault {
        kind,
        requests: u128::from(orders),
    }
}
