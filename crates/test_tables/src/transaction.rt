//! The lines of a transaction.
use crate::candidates::tell_candidates;
use crate::reads::tell_rows;
use crate::statements::tell_statement;
use crate::told::{asked, compare, done, words};
use crate::writes::{told_result, write};
use book_audit::audit;
use book_derivation::derive;
use share_rules::Office;
use society_rows::RowFault;
use sqlite::{Alter, Connection, Transaction};
use std::alloc::Global;
use std::io;
use std::str::Lines;
use test_sheets::{Sheet, first_word};

// What is done over a store is done over any, and with no clause: over a store by its name each call takes a minute to prove.

/// Tells what an audit, or a derivation, found.
fn told_audit(alloc: Global, found: Result<(), RowFault>) -> Option<String> {
    match found {
        Ok(()) => words(alloc, "sound"),
        Err(RowFault::Damaged | RowFault::Schema) => words(alloc, "damaged"),
        Err(_) => words(alloc, "not read"),
    }
}

/// Tells what a line asks of a transaction, or that it is done.
fn tell<S: Alter>(
    alloc: Global,
    tx: &mut Transaction<'_, S>,
    office: &Office,
    text: &str,
) -> Option<String> {
    let (word, rest) = first_word(text);
    match word {
        "all" | "ask" | "typed" | "numbered" | "run" => tell_rows(alloc, tx, word, rest),
        "sql" | "query" | "upwards" | "downwards" | "scatter" => {
            tell_statement(alloc, tx, word, rest)
        }
        "audit" => told_audit(alloc, audit(alloc, tx, office)),
        "derive" => told_audit(alloc, derive(alloc, tx, office)),
        "candidates" => tell_candidates(alloc, tx, office, rest),
        _ => told_result(alloc, write(alloc, tx, word, rest)?),
    }
}

/// Does lines in a transaction, up to the one that ends it.
pub fn run_transaction<S: Alter>(
    rt: &HostRuntime,
    sheet: &mut Sheet,
    office: &Office,
    conn: &mut Connection<S>,
    lines: &mut Lines<'_>,
) -> io::Result<()> {
    if !conn.is_autocommit() {
        return sheet.refuse(rt, "begin");
    }
    let mut tx = conn.transaction();
    for _ in 0..u64::MAX {
        let Some(line) = lines.next() else {
            break;
        };
        match line {
            "commit" => {
                let told = tx.commit().ok().and(done(rt.alloc()));
                return compare(rt, sheet, line, told);
            }
            "rollback" => {
                tx.rollback();
                return Ok(());
            }
            _ => {
                let told = tell(rt.alloc(), &mut tx, office, asked(line));
                compare(rt, sheet, line, told)?;
            }
        }
    }
    tx.rollback();
    sheet.refuse(rt, "a transaction without its end")
}
