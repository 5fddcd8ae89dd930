//! Statements as they are written.
use crate::reads::shown;
use crate::told::{done, words};
use sqlite::{Alter, Row, Transaction, params};
use sqlite_value::value::ValueRef;
use std::alloc::Global;
use test_sheets::first_word;

/// Tells the first and the last number of rows of one number each, which rise by a step from row to row; else the first that does not.
fn told_steps(alloc: Global, rows: &[Row], step: i64) -> Option<String> {
    let mut first = None;
    let mut last = None;
    for row in rows {
        let ValueRef::Int(number) = row.get_ref(0).ok()? else {
            return words(alloc, "no number");
        };
        match last {
            None => first = Some(number),
            Some(before) if number.checked_sub(before) == Some(step) => {}
            Some(before) => return format!(in alloc; "{number} behind {before}").ok(),
        }
        last = Some(number);
    }
    format!(in alloc; "{} to {}", first?, last?).ok()
}

/// Runs a statement for each number below a count, which are given it in steps, around from the last to the first.
fn scatter<S: Alter>(tx: &mut Transaction<'_, S>, words: &str) -> Option<()> {
    let (count, rest) = first_word(words);
    let (step, text) = first_word(rest);
    let count = count.parse::<i64>().ok()?;
    let step = step.parse::<i64>().ok()?;
    for at in 0..count {
        let number = at.checked_mul(step)?.checked_rem(count)?;
        tx.execute(text, params![number]).ok()?;
    }
    Some(())
}

/// Tells what a statement comes to: that it is done, its rows, or the numbers of its rows.
pub fn tell_statement<S: Alter>(
    alloc: Global,
    tx: &mut Transaction<'_, S>,
    word: &str,
    text: &str,
) -> Option<String> {
    if word == "scatter" {
        scatter(tx, text)?;
        return done(alloc);
    }
    if word == "sql" {
        let told = match tx.execute_batch(text) {
            Ok(()) => "done",
            Err(_) => "refused",
        };
        return words(alloc, told);
    }
    match (word, tx.query_all(text, &[])) {
        (_, Err(_)) => words(alloc, "refused"),
        ("upwards", Ok(rows)) => told_steps(alloc, &rows, 1),
        ("downwards", Ok(rows)) => told_steps(alloc, &rows, -1),
        (_, Ok(rows)) => shown(alloc, &rows),
    }
}
