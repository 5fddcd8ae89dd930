//! A whole amount split over weights.
ghost use Rattle.std.specs.Prelude.{◌≡◌, ◌≤◌, ◌<◌, ◌+◌, ◌^◌, ◌*◌, IfOk, length, sum};
ghost use Rattle.pool_split.specs.Threshold.{threshold_parts, units_of_threshold};
ghost use Rattle.pool_split.specs.Split.{IsFair, quotient, remainder, quotients, remainders, split_of};

use crate::threshold::{Threshold, threshold_at};
use std::alloc::{AllocError, Global};

// The whole units of a part.
fn quotient(amount: u64, total: u64, weight: u64) -> u64
    requires total { 1 ≤ total }
    requires weight { weight ≤ total }
    ensures { result ≡ quotient amount total weight }
{
    (u128::from(amount) * u128::from(weight) / u128::from(total)) as u64
}

// What a part's whole units leave of amount times weight.
fn remainder(amount: u64, total: u64, weight: u64) -> u64
    requires { 1 ≤ total }
    ensures { result ≡ remainder amount total weight }
{
    (u128::from(amount) * u128::from(weight) % u128::from(total)) as u64
}

// The sum of numbers.
fn sum(numbers: &[u64]) -> u64
    requires { sum numbers.now < 2 ^ 64 }
    ensures { result ≡ sum numbers.now }
{
    let mut sum = 0;
    for number in numbers {
        sum += *number;
    }
    sum
}

// The whole units of each part.
fn quotients(
    alloc: Global,
    amount: u64,
    total: u64,
    weights: &[u64],
) -> Result<Vec<u64>, AllocError>
    requires some { 1 ≤ total }
    requires total { total ≡ sum weights.now }
    ensures { IfOk result (λ list. list.items ≡ quotients amount weights.now) }
{
    let mut list = Vec::new(alloc);
    for weight in weights {
        list.push(quotient(amount, total, *weight))?;
    }
    Ok(list)
}

// What the whole units of each part leave.
fn remainders(
    alloc: Global,
    amount: u64,
    total: u64,
    weights: &[u64],
) -> Result<Vec<u64>, AllocError>
    requires some { 1 ≤ total }
    requires total { total ≡ sum weights.now }
    ensures { IfOk result (λ list. list.items ≡ remainders amount weights.now) }
{
    let mut list = Vec::new(alloc);
    for weight in weights {
        list.push(remainder(amount, total, *weight))?;
    }
    Ok(list)
}

// Adds the units of a threshold to the whole units.
fn with_units(
    alloc: Global,
    quotients: &[u64],
    remainders: &[u64],
    threshold: &Threshold,
) -> Result<Vec<u64>, AllocError>
    requires same { length quotients.now ≡ length remainders.now }
    requires room { sum quotients.now < 2 ^ 63 }
    ensures parts { IfOk result (λ parts. parts.items ≡ threshold_parts quotients.now remainders.now threshold.now) }
    ensures sum { IfOk result (λ parts. sum parts.items ≡ sum quotients.now + units_of_threshold remainders.now threshold.now) }
{
    let mut parts = Vec::new(alloc);
    let mut ties = threshold.ties;
    for place in 0..quotients.len() {
        parts.push(quotients[place] + threshold.unit(ties, remainders[place]))?;
        ties = threshold.ties_behind(ties, remainders[place]);
    }
    Ok(parts)
}

/// An amount split over weights: each part is the whole units of its share, and what these leave goes one by one to the
/// greatest remainders, equal ones by place (profile). The parts add up to the amount, and a weight of zero gets nothing.
pub fn split(alloc: Global, amount: u64, weights: &[u64]) -> Result<Vec<u64>, AllocError>
    requires amount { amount ≤ 1000000000000 }
    requires some { 1 ≤ sum weights.now }
    requires total { sum weights.now ≤ 1000000000000000000 }
    ensures parts { IfOk result (λ parts. parts.items ≡ split_of amount weights.now) }
    ensures fair { IfOk result (λ parts. IsFair amount weights.now parts.items) }
{
    let total = sum(weights);
    let quotients = quotients(alloc, amount, total, weights)?;
    let left = (amount - sum(&quotients)) as usize;
    if left == 0 {
        return Ok(quotients);
    }
    let remainders = remainders(alloc, amount, total, weights)?;
    let threshold = threshold_at(alloc, &remainders, left)?;
    with_units(alloc, &quotients, &remainders, &threshold)
}
