//! Lists of rows that are compared in whatever order they stand.
ghost use Rattle.std.specs.Prelude.{◌≡◌, ◌↔◌, length, map, IfOk, IsPermutation, IsSorted, IsTrue, OnOk};
ghost use Rattle.std.specs.List.{AllByRecursion};
ghost use Rattle.society_rows.specs.Rows.{credit_values, front_values, recording_values, verdict_values, version_values};
ghost use Rattle.sqlite_value.specs.Order.{column, row_cmp};
ghost use Rattle.sqlite_value.specs.Value.{owned};
ghost use Rattle.book_audit.specs.Alike.{IsExact};

use society_rows::{CreditRow, FrontRow, RecordingRow, VerdictRow, VersionRow};
use sqlite::Row;
use sqlite_value::order::{compare, is_same};
use sqlite_value::value::ValueRef;
use std::alloc::AllocError;
use std::cmp::Ordering;

/// What has values in columns, as a row has.
pub(crate) trait Columns {
    ghost use Rattle.sqlite_value.specs.Order.{Row as SqlRow};

    /// Its values, in the order of its table's columns.
    ghost values: { Self → SqlRow };

    /// How many columns it has.
    fn width(&self) -> usize
        ensures { result ≡ length (values self.now) };

    /// The value in a column, and NULL past the end.
    fn value(&self, at: usize) -> ValueRef<'_>
        ensures { owned result ≡ column (values self.now) at };
}

impl Columns for Row {
    ghost values = { λ row. row };

    fn width(&self) -> usize {
        self.column_count()
    }

    fn value(&self, at: usize) -> ValueRef<'_> {
        match self.get_ref(at) {
            Ok(value) => value,
            Err(_) => ValueRef::Null,
        }
    }
}

impl<'a> Columns for FrontRow<'a> {
    ghost values = { front_values };

    fn width(&self) -> usize {
        3
    }

    fn value(&self, at: usize) -> ValueRef<'_> {
        match at {
            0 => ValueRef::Text(self.sender),
            1 => ValueRef::Int(i64::from(self.front)),
            2 => ValueRef::Int(self.works),
            _ => ValueRef::Null,
        }
    }
}

impl<'a> Columns for VerdictRow<'a> {
    ghost values = { verdict_values };

    fn width(&self) -> usize {
        6
    }

    fn value(&self, at: usize) -> ValueRef<'_> {
        match at {
            0 => ValueRef::Text(self.sender),
            1 => ValueRef::Int(i64::from(self.number)),
            2 => ValueRef::Int(i64::from(self.place)),
            3 => ValueRef::Int(i64::from(self.fault)),
            4 => ValueRef::Int(self.ordinal),
            5 => ValueRef::Int(self.revision),
            _ => ValueRef::Null,
        }
    }
}

impl<'a> Columns for VersionRow<'a> {
    ghost values = { version_values };

    fn width(&self) -> usize {
        6
    }

    fn value(&self, at: usize) -> ValueRef<'_> {
        match at {
            0 => ValueRef::Text(self.sender),
            1 => ValueRef::Text(self.work),
            2 => ValueRef::Int(self.revision),
            3 => ValueRef::Int(i64::from(self.number)),
            4 => ValueRef::Int(i64::from(self.place)),
            5 => ValueRef::Int(self.ordinal),
            _ => ValueRef::Null,
        }
    }
}

impl<'a> Columns for RecordingRow<'a> {
    ghost values = { recording_values };

    fn width(&self) -> usize {
        4
    }

    fn value(&self, at: usize) -> ValueRef<'_> {
        match at {
            0 => ValueRef::Text(self.sender),
            1 => ValueRef::Text(self.work),
            2 => ValueRef::Int(self.revision),
            3 => ValueRef::Text(self.isrc),
            _ => ValueRef::Null,
        }
    }
}

impl<'a> Columns for CreditRow<'a> {
    ghost values = { credit_values };

    fn width(&self) -> usize {
        5
    }

    fn value(&self, at: usize) -> ValueRef<'_> {
        match at {
            0 => ValueRef::Int(i64::from(self.pool)),
            1 => ValueRef::Int(i64::from(self.line)),
            2 => ValueRef::Text(self.isrc),
            3 => ValueRef::Text(self.account),
            4 => ValueRef::Int(self.units),
            _ => ValueRef::Null,
        }
    }
}

// How two compare: column by column, and one before what extends it.
fn order_of<R: Columns>(one: &R, other: &R) -> Ordering
    ensures { result ≡ row_cmp (R.values one.now) (R.values other.now) }
{
    for at in 0..one.width().min(other.width()) {
        match compare(one.value(at), other.value(at)) {
            Ordering::Equal => {}
            found => return found,
        }
    }
    one.width().cmp(&other.width())
}

// Puts a list in order, by all columns.
fn sort_all<R: Columns>(list: &mut Vec<R>) -> Result<(), AllocError>
    ensures permutation { IsPermutation list.old.items list.new.items }
    ensures sorted { OnOk result (IsSorted row_cmp (map R.values list.new.items)) }
{
    list.sort_by(|one, other| order_of(one, other))
}

// Whether a row has the values of another.
fn is_row<R: Columns>(row: &Row, wanted: &R) -> bool
    ensures { IsTrue result ↔ (row.now ≡ R.values wanted.now) }
{
    if row.width() != wanted.width() {
        return false;
    }
    for at in 0..row.width() {
        if !is_same(row.value(at), wanted.value(at)) {
            return false;
        }
    }
    true
}

/// Whether rows are these, one after another.
pub(crate) fn are_rows<R: Columns>(rows: &[Row], wanted: &[R]) -> bool
    ensures { IsTrue result ↔ (rows.now ≡ map R.values wanted.now) }
{
    if rows.len() != wanted.len() {
        return false;
    }
    for at in 0..rows.len() {
        if !is_row(&rows[at], &wanted[at]) {
            return false;
        }
    }
    true
}

/// Whether rows are these, each as often, in whatever order; both lists are put in one order.
pub(crate) fn are_alike<R: Columns>(
    rows: &mut Vec<Row>,
    wanted: &mut Vec<R>,
) -> Result<bool, AllocError>
    ensures alike { IfOk result (λ alike. IsTrue alike → IsPermutation rows.old.items (map R.values wanted.old.items)) }
    ensures exact { IfOk result (λ alike. AllByRecursion IsExact (map R.values wanted.old.items) →
        IsPermutation rows.old.items (map R.values wanted.old.items) → IsTrue alike) }
{
    sort_all(rows)?;
    sort_all(wanted)?;
    Ok(are_rows(rows.as_slice(), wanted.as_slice()))
}
