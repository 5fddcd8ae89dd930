//! The reader of returns.
ghost use Rattle.std.specs.Prelude.{◌≡◌, ◌<◌, ◌+◌};
ghost use Rattle.csv.specs.Records.{fields_of};
ghost use Rattle.csv.specs.Reading.{error_kind};
ghost use Rattle.perf_returns.specs.Rows.{IsRowTaken};
ghost use Rattle.perf_returns.specs.Unread.{IsRefused};
ghost use Rattle.perf_returns.specs.declared.fault.ReturnError.TheVariants.{Memory};
ghost use Rattle.perf_returns.specs.Returns.{AnswersReturn, return_fault, performances_in};

use crate::fault::{ReturnError, ReturnFault};
use crate::performance::{Performance, WRONG_HEADER, header_fault, read_row};
use crate::performances::{Performances, Return};
use csv::{ByteRecord, Error, ErrorKind, ReaderBuilder};
use std::alloc::Global;

/// Row of the header.
const HEADER_ROW: usize = 1;

/// Most rows of data of a return (profile).
const MAX_ROWS: usize = 10_000;

/// Fault: there are more rows of data than a return may have (profile).
const TOO_MANY_ROWS: u8 = 6;

// Takes the record of a row: one of data joins the rows. `Err` is the first fault of the row, or want of memory.
fn take(row: usize, fields: &ByteRecord, rows: &mut Vec<Performance>) -> Result<(), ReturnError>
    ensures { IsRowTaken row (fields_of fields.now) rows.old.items rows.new.items result }
{
    if row == HEADER_ROW {
        return match header_fault(fields) {
            Some(number) => Err(ReturnError::Csv(ReturnFault { number, row })),
            None => Ok(()),
        };
    }
    if row > HEADER_ROW + MAX_ROWS {
        let number = TOO_MANY_ROWS;
        return Err(ReturnError::Csv(ReturnFault { number, row }));
    }
    match read_row(fields) {
        Ok(performance) => {
            rows.push(performance)?;
            Ok(())
        }
        Err(number) => Err(ReturnError::Csv(ReturnFault { number, row })),
    }
}

// What a record that could not be read comes to. A reader of a slice fails for want of memory alone; records may have
// any number of fields, and no field has to be text.
fn unread(error: &Error) -> ReturnError
    requires { IsRefused (error_kind error.now) }
    ensures { result ≡ Memory }
{
    match error.kind() {
        ErrorKind::Io(_) | ErrorKind::OutOfMemory => ReturnError::Memory,
        ErrorKind::UnequalLengths { .. }
        | ErrorKind::Utf8 { .. }
        | ErrorKind::Serialize(_)
        | ErrorKind::Deserialize { .. } => unreachable!(),
    }
}

/// The rows of a return, read from CSV with fields of any number and untrimmed; else the fault of the first row that
/// has one, or `Memory` (RFC 4180; the header, the limits and the faults: profile).
pub fn read_return(alloc: Global, body: &[u8]) -> Result<Return, ReturnError>
    ensures { AnswersReturn (return_fault body.now) (performances_in body.now) result }
{
    let reader = ReaderBuilder::new()
        .has_headers(false)
        .flexible(true)
        .from_reader(alloc, body);
    let mut rows = Vec::new(alloc);
    let mut row = 0;
    for fields in reader.into_byte_records() {
        let fields = match fields {
            Ok(fields) => fields,
            Err(error) => return Err(unread(&error)),
        };
        row += 1;
        take(row, &fields, &mut rows)?;
    }
    if row == 0 {
        return Err(ReturnError::Csv(ReturnFault {
            number: WRONG_HEADER,
            row: HEADER_ROW,
        }));
    }
    Ok(Return {
        rows: Performances::from_vec(rows),
    })
}
