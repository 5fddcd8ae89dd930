//! Rows that are read, as text.
ghost use Rattle.std.specs.Prelude.{◌+◌, ◌≡◌};
ghost use Rattle.society_rows.specs.declared.fault.RowFault.TheVariants.{Memory};

use crate::questions::{question_of, table_of};
use crate::rows::count;
use crate::told::words;
use crate::typed::told_typed;
use crate::writes::told_result;
use society_rows::{RowFault, RowFold, all_rows, answer, are_numbered, fold_run};
use sqlite::{Alter, Row, Transaction};
use sqlite_value::value::ValueRef;
use std::alloc::{AllocError, Global};
use test_sheets::first_word;

/// Counts the rows that it takes.
#[derive(Drop)]
struct Count {
    rows: u64,
}

impl RowFold for Count {
    ghost step = { λ c _. record c { rows = c.rows + 1 } };

    ghost refusal = { λ _ _ fault. fault ≡ Memory };

    fn take(&mut self, _row: &Row) -> Result<(), RowFault> {
        let Some(rows) = self.rows.checked_add(1) else {
            return Err(RowFault::Memory);
        };
        self.rows = rows;
        Ok(())
    }
}

fn push_value(text: &mut String, alloc: Global, value: ValueRef<'_>) -> Result<(), AllocError> {
    match value {
        ValueRef::Int(n) => text.push_str(format!(in alloc; "{n}")?.as_str())?,
        ValueRef::Text(bytes) | ValueRef::Blob(bytes) => {
            for byte in bytes {
                text.push(char::from(*byte))?;
            }
        }
        _ => text.push('?')?,
    }
    text.push('|')
}

fn push_row(text: &mut String, alloc: Global, row: &Row) -> Result<(), AllocError> {
    for at in 0..row.column_count() {
        if let Ok(value) = row.get_ref(at) {
            push_value(text, alloc, value)?;
        }
    }
    text.push(';')
}

/// The values of rows, `|` behind each and `;` behind each row; `none` of no row.
pub fn shown(alloc: Global, rows: &[Row]) -> Option<String> {
    if rows.is_empty() {
        return words(alloc, "none");
    }
    let mut text = String::new(alloc);
    for row in rows {
        push_row(&mut text, alloc, row).ok()?;
    }
    Some(text)
}

/// The same, or why there are no rows.
pub fn shown_or_fault(alloc: Global, rows: Result<Vec<Row>, RowFault>) -> Option<String> {
    match rows {
        Ok(rows) => shown(alloc, &rows),
        Err(fault) => told_result(alloc, Err(fault)),
    }
}

/// How many numbers of a sender are in the run that begins with a number.
fn run_from<S: Alter>(tx: &mut Transaction<'_, S>, words: &str) -> Option<u64> {
    let (sender, first) = first_word(words);
    let mut run = Count { rows: 0 };
    fold_run(tx, sender.as_bytes(), count(first)?, &mut run).ok()?;
    Some(run.rows)
}

/// Whether the rows of a table are numbered.
fn told_numbered<S: Alter>(tx: &mut Transaction<'_, S>, table: &str) -> Option<&'static str> {
    match are_numbered(tx, table_of(table)?).ok()? {
        true => Some("yes"),
        false => Some("no"),
    }
}

/// Tells the rows that a line reads: all of a table, those that answer a question, as they are or as the type of their table; or of
/// them whether they are numbered, or how many are in a run.
pub fn tell_rows<S: Alter>(
    alloc: Global,
    tx: &mut Transaction<'_, S>,
    word: &str,
    rest: &str,
) -> Option<String> {
    let list = rest.split(' ').collect::<Vec<&str>>(alloc).ok()?;
    match (word, list.as_slice()) {
        ("all", [table]) => shown_or_fault(alloc, all_rows(tx, table_of(table)?)),
        ("ask", question) => shown_or_fault(alloc, answer(tx, question_of(question)?)),
        ("typed", [kind, question @ ..]) => {
            told_typed(alloc, kind, &answer(tx, question_of(question)?).ok()?)
        }
        ("numbered", [table]) => words(alloc, told_numbered(tx, table)?),
        ("run", _) => format!(in alloc; "{}", run_from(tx, rest)?).ok(),
        _ => None,
    }
}
