//! Tables by their names, and the questions that words ask of them.
use crate::rows::count;
use society_rows::{Question, TableName};

/// The tables, each with the word that names it.
const TABLES: [(&str, TableName); 14] = [
    ("office", TableName::Office),
    ("transmissions", TableName::Transmissions),
    ("returns", TableName::Returns),
    ("pools", TableName::Pools),
    ("cuts", TableName::PoolCuts),
    ("paid", TableName::PoolReturns),
    ("fronts", TableName::Fronts),
    ("verdicts", TableName::Verdicts),
    ("versions", TableName::Versions),
    ("recordings", TableName::Recordings),
    ("credits", TableName::Credits),
    ("balances", TableName::Balances),
    ("ends", TableName::SegmentEnds),
    ("mechanical", TableName::MechanicalPools),
];

/// The table that a word names.
pub fn table_of(word: &str) -> Option<TableName> {
    for (name, table) in &TABLES {
        if *name == word {
            return Some(*table);
        }
    }
    None
}

/// A question of a word and the number of a pool.
fn of_pool<'a>(word: &str, pool: u32) -> Option<Question<'a>> {
    Some(match word {
        "pool" => Question::Pool(pool),
        "mechanical" => Question::Mechanical(pool),
        "cuts" => Question::Cuts(pool),
        "paid-by" => Question::PaidBy(pool),
        "credits" => Question::Credits(pool),
        _ => return None,
    })
}

/// A question of a word and a key alone.
fn of_key<'a>(word: &str, key: &'a str) -> Option<Question<'a>> {
    let bytes = key.as_bytes();
    Some(match word {
        "front" => Question::Front(bytes),
        "ends" => Question::Ends(bytes),
        "balance" => Question::Balance(bytes),
        "sender-verdicts" => Question::SenderVerdicts(bytes),
        "sender-versions" => Question::SenderVersions(bytes),
        "sender-recordings" => Question::SenderRecordings(bytes),
        _ => return of_pool(word, count(key)?),
    })
}

/// A question of a word, a key and what stands beside it, a work or a number.
fn of_key_and<'a>(word: &str, key: &'a str, beside: &'a str) -> Option<Question<'a>> {
    let bytes = key.as_bytes();
    let number = count(beside);
    Some(match word {
        "versions" => Question::Versions(bytes, beside.as_bytes()),
        "last-version" => Question::LastVersion(bytes, beside.as_bytes()),
        "transmission" => Question::Transmission(bytes, number?),
        "numbers-above" => Question::NumbersAbove(bytes, number?),
        "return" => Question::Return(bytes, number?),
        "has-return" => Question::HasReturn(bytes, number?),
        "payer" => Question::Payer(bytes, number?),
        "verdicts" => Question::Verdicts(bytes, number?),
        _ => return None,
    })
}

/// The question that words ask.
pub fn question_of<'a>(words: &[&'a str]) -> Option<Question<'a>> {
    match words {
        ["office"] => Some(Question::Office),
        ["transmission-keys"] => Some(Question::TransmissionKeys),
        ["return-keys"] => Some(Question::ReturnKeys),
        ["numbers-between", sender, above, below] => {
            let above = count(above)?;
            let below = count(below)?;
            Some(Question::NumbersBetween(sender.as_bytes(), above, below))
        }
        [word, key] => of_key(word, key),
        [word, key, beside] => of_key_and(word, key, beside),
        _ => None,
    }
}
