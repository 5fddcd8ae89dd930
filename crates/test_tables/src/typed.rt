//! Rows as the types of their tables.
use crate::told::words;
use society_rows::{
    BalanceRow, FrontRow, MechanicalPoolRow, OfficeRow, RowFault, SegmentEndRow, TransmissionRow,
};
use sqlite::Row;
use std::alloc::{AllocError, Global};
use work_ids::Segment;

/// Bytes as they are read.
fn text_of(bytes: &[u8]) -> &str {
    str::from_utf8(bytes).unwrap_or("?")
}

/// A segment as it is written.
fn segment_text(alloc: Global, segment: Segment) -> Result<String, AllocError> {
    match segment {
        Segment::Plain => String::from_str(alloc, "plain"),
        Segment::Year(year) => format!(in alloc; "{year}"),
    }
}

/// The values of a row as the type of its table.
fn values_of(alloc: Global, kind: &str, row: &Row) -> Result<String, RowFault> {
    Ok(match kind {
        "office" => {
            let row = OfficeRow::from_row(row)?;
            let name = text_of(row.name);
            format!(in alloc; "{} {} {name}", row.society, row.territory)?
        }
        "transmission" => {
            let row = TransmissionRow::from_row(row)?;
            let (sender, body) = (text_of(row.sender), text_of(row.body));
            format!(in alloc; "{sender} {} {body}", row.number)?
        }
        "front" => {
            let row = FrontRow::from_row(row)?;
            let sender = text_of(row.sender);
            format!(in alloc; "{sender} {} {}", row.front, row.works)?
        }
        "balance" => {
            let row = BalanceRow::from_row(row)?;
            let account = text_of(row.account);
            format!(in alloc; "{account} {}", row.units)?
        }
        "end" => {
            let row = SegmentEndRow::from_row(row)?;
            let sender = text_of(row.sender);
            let segment = segment_text(alloc, row.segment)?;
            format!(in alloc; "{sender} {segment} {} {}", row.last, row.next)?
        }
        "mechanical" => {
            let row = MechanicalPoolRow::from_row(row)?;
            format!(in alloc; "{}", row.pool)?
        }
        _ => String::from_str(alloc, "no such type")?,
    })
}

/// Tells rows as the type of their table, `;` behind each; of one that has other columns, that it is not read; `none` of no row.
pub fn told_typed(alloc: Global, kind: &str, rows: &[Row]) -> Option<String> {
    if rows.is_empty() {
        return words(alloc, "none");
    }
    let mut text = String::new(alloc);
    for row in rows {
        let values = values_of(alloc, kind, row);
        let values = values.unwrap_or(String::from_str(alloc, "not read").ok()?);
        text.push_str(values.as_str()).ok()?;
        text.push(';').ok()?;
    }
    Some(text)
}
