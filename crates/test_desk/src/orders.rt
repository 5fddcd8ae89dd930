//! Orders that are made of numbers: their faults.
use share_rules::Kind;
use society_core::{OrderError, PoolOrder};
use std::alloc::Global;
use test_bodies::sender;
use test_sheets::first_word;
use work_ids::{Reporter, SenderKey};

/// The numbers of a list with commas, where `7*3` is 7 three times; none of a hyphen.
fn numbers_of(alloc: Global, list: &str) -> Option<Vec<u64>> {
    let mut numbers = Vec::new(alloc);
    if list == "-" {
        return Some(numbers);
    }
    for item in list.split(',') {
        let (number, times) = item.split_once('*').unwrap_or((item, "1"));
        let number = number.parse::<u64>().ok()?;
        for _ in 0..times.parse::<u64>().ok()? {
            numbers.push(number).ok()?;
        }
    }
    Some(numbers)
}

/// The cut of these numbers: the first is of another sender than the others.
fn cut_of(alloc: Global, numbers: &[u64]) -> Option<Vec<(SenderKey, u64)>> {
    let mut cut = Vec::new(alloc);
    let mut named = SenderKey::from_bytes(b"PB000000034").ok()?;
    for number in numbers {
        cut.push((named, *number)).ok()?;
        named = sender().ok()?;
    }
    Some(cut)
}

/// The returns of one reporter with these numbers.
fn returns_of(alloc: Global, numbers: &[u64]) -> Option<Vec<(Reporter, u64)>> {
    let reporter = Reporter::from_bytes(b"RADIO1").ok()?;
    let mut returns = Vec::new(alloc);
    for number in numbers {
        returns.push((reporter, *number)).ok()?;
    }
    Some(returns)
}

/// Tells the fault of an order of an amount, the numbers of a cut and those of returns.
pub fn tell_order(alloc: Global, words: &str) -> Option<String> {
    let (amount, lists) = first_word(words);
    let (cut, returns) = first_word(lists);
    let amount = amount.parse::<u64>().ok()?;
    let cut = cut_of(alloc, &numbers_of(alloc, cut)?)?;
    let returns = returns_of(alloc, &numbers_of(alloc, returns)?)?;
    match PoolOrder::new(alloc, Kind::Performing, amount, &cut, &returns) {
        Ok(_) => String::from_str(alloc, "none").ok(),
        Err(OrderError::Order(fault)) => format!(in alloc; "{}", fault.number()).ok(),
        Err(OrderError::Memory) => None,
    }
}
