//! Pools: the parts of amounts, which claims can be paid, and what is credited for them.
ghost use Rattle.std.specs.Prelude.{◌≤◌, IsTrue, sum};

use crate::shares::tell_account;
use crate::told::Told;
use pool_split::{Claim, Credit, Holders, are_payable, credits, split};
use share_rules::Holder;
use std::alloc::Global;
use test_sheets::first_word;
use work_ids::{Account, Isrc};

/// The most that weights may come to.
const GREATEST_TOTAL: u64 = 1_000_000_000_000_000_000;

/// The greatest amount.
const GREATEST_AMOUNT: u64 = 1_000_000_000_000;

/// Tells what a word asks of an amount, or of the claims that are the lines of a body; whether there is such a word.
pub fn tell_pool(alloc: Global, told: &mut Told, word: &str, rest: &str, body: &[u8]) -> bool {
    match word {
        "split" => tell_split(alloc, told, rest),
        "payable" => tell_payable(alloc, told, body),
        "credits" => tell_credits(alloc, told, rest, body),
        _ => return false,
    }
    true
}

/// Whether weights come to something, and to no more than they may.
fn have_total(weights: &[u64]) -> bool
    ensures { IsTrue result → (1 ≤ sum weights.now) × (sum weights.now ≤ 1000000000000000000) }
{
    let mut total = 0;
    for weight in weights {
        if *weight > GREATEST_TOTAL - total {
            return false;
        }
        total += *weight;
    }
    total > 0
}

/// The numbers that words spell.
fn numbers_of(alloc: Global, words: &str) -> Option<Vec<u64>> {
    let mut numbers = Vec::new(alloc);
    for word in words.split(' ') {
        numbers.push(word.parse::<u64>().ok()?).ok()?;
    }
    Some(numbers)
}

/// Tells the parts of an amount by weights.
fn tell_split(alloc: Global, told: &mut Told, rest: &str) {
    let (amount, weights) = first_word(rest);
    let amount = told.long_number(amount);
    let Some(weights) = numbers_of(alloc, weights) else {
        told.word(b"no weights");
        return;
    };
    if amount > GREATEST_AMOUNT || !have_total(&weights) {
        told.word(b"not within the limits");
        return;
    }
    match split(alloc, amount, &weights) {
        Ok(parts) => tell_parts(told, &parts),
        Err(_) => told.word(b"memory"),
    }
}

fn tell_parts(told: &mut Told, parts: &[u64]) {
    for part in parts {
        told.value(*part);
    }
}

/// Puts the holder that an account and a weight make behind others; whether they make one.
fn push_holder(holders: &mut Vec<Holder>, words: &str) -> bool {
    let (account, weight) = first_word(words);
    match (
        Account::from_bytes(account.as_bytes()),
        weight.parse::<u64>(),
    ) {
        (Ok(account), Ok(weight)) => holders.push(Holder { account, weight }).is_ok(),
        _ => false,
    }
}

/// The holders that pairs of an account and a weight make, with commas between the pairs.
fn holders_of(alloc: Global, pairs: &str) -> Option<Holders> {
    let mut holders = Vec::new(alloc);
    for pair in pairs.split(", ") {
        if !push_holder(&mut holders, pair) {
            return None;
        }
    }
    Holders::from_vec(alloc, holders).ok()
}

/// The claim of a line: an ISRC, its points, and its holders, if it has any.
fn claim_of(alloc: Global, line: &str) -> Option<Claim> {
    let (isrc, rest) = first_word(line);
    let (points, pairs) = first_word(rest);
    let isrc = Isrc::from_text(isrc.as_bytes()).ok()?;
    let points = points.parse::<u64>().ok()?;
    if pairs.is_empty() {
        return Some(Claim {
            isrc,
            points,
            holders: None,
        });
    }
    let holders = Some(holders_of(alloc, pairs)?);
    Some(Claim {
        isrc,
        points,
        holders,
    })
}

/// The claims that are the lines of a body.
fn claims_of(alloc: Global, body: &[u8]) -> Option<Vec<Claim>> {
    let mut claims = Vec::new(alloc);
    for line in str::from_utf8(body).ok()?.lines() {
        claims.push(claim_of(alloc, line)?).ok()?;
    }
    Some(claims)
}

/// Tells whether claims can be paid.
fn tell_payable(alloc: Global, told: &mut Told, body: &[u8]) {
    match claims_of(alloc, body) {
        Some(claims) => told.value(are_payable(&claims)),
        None => told.word(b"no claims"),
    }
}

/// Tells a credit: its recording, its account and its units.
fn tell_credit(told: &mut Told, credit: &Credit) {
    match &credit.isrc {
        Some(isrc) => told.word(isrc.as_bytes()),
        None => told.word(b"none"),
    }
    tell_account(told, &credit.account);
    told.value(credit.units);
    told.bytes(b";");
}

/// Tells the credits of a pool of an amount over claims.
fn tell_credits(alloc: Global, told: &mut Told, rest: &str, body: &[u8]) {
    let amount = told.long_number(rest);
    let Some(claims) = claims_of(alloc, body) else {
        told.word(b"no claims");
        return;
    };
    if amount > GREATEST_AMOUNT || !are_payable(&claims) {
        told.word(b"not payable");
        return;
    }
    match credits(alloc, amount, &claims) {
        Ok(list) => tell_all_credits(told, &list),
        Err(_) => told.word(b"memory"),
    }
}

fn tell_all_credits(told: &mut Told, credits: &[Credit]) {
    for credit in credits {
        tell_credit(told, credit);
    }
}
