//! The values of a row, as their columns have them.
ghost use Rattle.std.specs.Prelude.{◌≡◌, ◌≤◌, pos, IfOk, IfErr, IsOk, FitsSigned};
ghost use Rattle.std.specs.Int.{w64};
ghost use Rattle.sqlite_value.specs.Order.{column};
ghost use Rattle.sqlite_value.specs.declared.value.Value.TheVariants.{Int, Text, Blob};
ghost use Rattle.society_rows.specs.declared.fault.RowFault.TheVariants.{Damaged};
ghost use Rattle.society_rows.specs.Forms.{HasForm, Words, Bytes, Count, Amount, Segment as SegmentForm};
ghost use Rattle.society_rows.specs.SegmentColumns.{segment_column};
ghost use Rattle.work_ids.specs.Segments.{index_of};

use crate::RowFault;
use sqlite::Row;
use sqlite_value::value::ValueRef;
use work_ids::Segment;

/// The text in a column, as bytes; else `Damaged`.
pub(crate) fn text(row: &Row, at: usize) -> Result<&[u8], RowFault>
    ensures value { IfOk result (λ t. column row.now at ≡ Text t.now) }
    ensures read { HasForm Words (column row.now at) → IsOk result }
    ensures err { IfErr result (λ e. e ≡ Damaged) }
{
    match row.get_ref(at) {
        Ok(ValueRef::Text(bytes)) => Ok(bytes),
        _ => Err(RowFault::Damaged),
    }
}

/// The bytes in a column; else `Damaged`.
pub(crate) fn bytes(row: &Row, at: usize) -> Result<&[u8], RowFault>
    ensures value { IfOk result (λ b. column row.now at ≡ Blob b.now) }
    ensures read { HasForm Bytes (column row.now at) → IsOk result }
    ensures err { IfErr result (λ e. e ≡ Damaged) }
{
    match row.get_ref(at) {
        Ok(ValueRef::Blob(bytes)) => Ok(bytes),
        _ => Err(RowFault::Damaged),
    }
}

/// The whole number in a column, which is at least 0 and fits 32 bits; else `Damaged`.
pub(crate) fn whole(row: &Row, at: usize) -> Result<u32, RowFault>
    ensures value { IfOk result (λ n. column row.now at ≡ Int (pos n)) }
    ensures read { HasForm Count (column row.now at) → IsOk result }
    ensures err { IfErr result (λ e. e ≡ Damaged) }
{
    match row.get_ref(at) {
        Ok(ValueRef::Int(n)) => u32::try_from(n).map_err(|_| RowFault::Damaged),
        _ => Err(RowFault::Damaged),
    }
}

/// The whole number in a column; else `Damaged`.
pub(crate) fn integer(row: &Row, at: usize) -> Result<i64, RowFault>
    ensures value { IfOk result (λ n. column row.now at ≡ Int n) }
    ensures read { HasForm Amount (column row.now at) → IsOk result }
    ensures range { IfOk result (λ n. FitsSigned w64 n) }
    ensures err { IfErr result (λ e. e ≡ Damaged) }
{
    match row.get_ref(at) {
        Ok(ValueRef::Int(n)) => Ok(n),
        _ => Err(RowFault::Damaged),
    }
}

/// The segment in a column: -1 is the plain one, 0 to 99 is a year; else `Damaged`.
pub(crate) fn segment(row: &Row, at: usize) -> Result<Segment, RowFault>
    ensures value { IfOk result (λ s. column row.now at ≡ Int (segment_column (index_of s))) }
    ensures read { HasForm SegmentForm (column row.now at) → IsOk result }
    ensures range { IfOk result (λ s. index_of s ≤ 100) }
    ensures err { IfErr result (λ e. e ≡ Damaged) }
{
    let number = integer(row, at)?;
    if number == -1 {
        return Ok(Segment::Plain);
    }
    match u8::try_from(number) {
        Ok(year) if year < 100 => Ok(Segment::Year(year)),
        _ => Err(RowFault::Damaged),
    }
}
