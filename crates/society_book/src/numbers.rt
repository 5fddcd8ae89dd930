//! The numbers of a sender's transmissions, by their keys alone.
ghost use Rattle.std.specs.Prelude.{◌≡◌, ◌++◌, map, IfOk, OnOk};
ghost use Rattle.society_core.specs.Ends.{last_number_of};
ghost use Rattle.society_rows.specs.Between.{between};
ghost use Rattle.society_rows.specs.Questions.{Asks};
ghost use Rattle.society_book.specs.Columns.{whole_number_at};
ghost use Rattle.society_book.specs.Sources.{BySent};
ghost use Rattle.society_book.specs.Standing.{numbers_above, numbers_within};

use society_rows::{Idle, Question, RowFault, TransmissionKeyRow, ask};
use sqlite::{Alter, Row};
use work_ids::TransmissionNumber;

// The number that the key of a transmission has; `Damaged` where it is no transmission's number.
fn number_of(row: &Row) -> Result<TransmissionNumber, RowFault>
    ensures { IfOk result (λ number. number ≡ whole_number_at 1 row.now) }
{
    match TransmissionNumber::from_u32(TransmissionKeyRow::from_row(row)?.number) {
        Some(number) => Ok(number),
        None => Err(RowFault::Damaged),
    }
}

// Appends the numbers that keys of transmissions have, in their order.
fn append_numbers(rows: &[Row], list: &mut Vec<TransmissionNumber>) -> Result<(), RowFault>
    ensures { OnOk result (list.new.items ≡ list.old.items ++ map (whole_number_at 1) rows.now) }
{
    for row in rows {
        list.push(number_of(row)?)?;
    }
    Ok(())
}

/// Appends the numbers of a sender's transmissions above a number, ascending.
pub(crate) fn append_above<S: Alter>(
    conn: &mut Idle<S>,
    sender: &[u8],
    above: u32,
    list: &mut Vec<TransmissionNumber>,
) -> Result<(), RowFault>
    ensures asked { between S.Store conn.old conn.new Asks result (BySent (λ book _. list.new.items ≡ list.old.items ++ numbers_above book sender.now above)) }
{
    let rows = ask(conn, Question::NumbersAbove(sender, above))?;
    append_numbers(rows.as_slice(), list)
}

/// Appends the numbers of a sender's transmissions above one number and below another, ascending.
pub(crate) fn append_within<S: Alter>(
    conn: &mut Idle<S>,
    sender: &[u8],
    above: u32,
    below: u32,
    list: &mut Vec<TransmissionNumber>,
) -> Result<(), RowFault>
    ensures asked { between S.Store conn.old conn.new Asks result (BySent (λ book _. list.new.items ≡ list.old.items ++ numbers_within book sender.now above below)) }
{
    let rows = ask(conn, Question::NumbersBetween(sender, above, below))?;
    append_numbers(rows.as_slice(), list)
}

// The number of the last of some keys of transmissions, none where there is none.
fn last_number(rows: &[Row]) -> Result<Option<TransmissionNumber>, RowFault>
    ensures { IfOk result (λ number. number ≡ last_number_of (map (whole_number_at 1) rows.now)) }
{
    match rows {
        [] => Ok(None),
        [.., row] => Ok(Some(number_of(row)?)),
    }
}

/// The greatest number of a sender's transmissions above one number and below another, none where there is none.
pub(crate) fn last_within<S: Alter>(
    conn: &mut Idle<S>,
    sender: &[u8],
    above: u32,
    below: u32,
) -> Result<Option<TransmissionNumber>, RowFault>
    ensures asked { between S.Store conn.old conn.new Asks result (BySent (λ book number. number ≡ last_number_of (numbers_within book sender.now above below))) }
{
    let rows = ask(conn, Question::NumbersBetween(sender, above, below))?;
    last_number(rows.as_slice())
}
