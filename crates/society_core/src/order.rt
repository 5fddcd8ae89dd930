//! Orders that close a pool.
ghost use Rattle.std.specs.Prelude.{◌≡◌, ◌≤◌, IfOk, length, map, true};
ghost use Rattle.std.specs.BTreeSet.{IsFromIterResult};
ghost use Rattle.std.specs.List.{list_all, list_any};
ghost use Rattle.society_core.specs.Keys.{ascending, return_cmp, return_key, transmission_cmp, transmission_key};
ghost use Rattle.society_core.specs.Orders.{IsOrder, OrdersAs, OrdersAreSets, has_repeat, is_out_of_range, names_return, order_fault, same_numbered, same_order, same_sender};
ghost use Rattle.work_ids.specs.Numbers.{is_return_number, number_where};
ghost use Rattle.work_ids.specs.Segments.{is_transmission_number};
ghost use Rattle.work_ids.specs.SenderKey.{is_sender_key};

use crate::order_fault::OrderFault;
use crate::return_key::ReturnKey;
use crate::transmission_key::TransmissionKey;
use share_rules::Kind;
use std::alloc::{AllocError, AllocFailed, Global};
use std::collections::BTreeSet;
use std::marker::Model;
use thiserror::Error;
use work_ids::{Reporter, ReturnNumber, SenderKey, TransmissionNumber};

/// The greatest amount of a pool, in units of money (profile).
const GREATEST_AMOUNT: u64 = 1_000_000_000_000;

/// Most senders of a cut, and most returns of an order (profile).
const MOST_SENDERS: usize = 200;

const MOST_RETURNS: usize = 1_000;

/// Why numbers make no order: the least fault that holds, or memory ran out.
#[derive(Clone, Copy, Debug, PartialEq, Eq, Error)]
pub enum OrderError {
    /// A number out of its range, too many senders or returns, or a sender or a return named twice.
    #[error("order fault")]
    Order(OrderFault),
    /// Memory was refused.
    #[error("out of memory")]
    Memory,
}

impl From<AllocError> for OrderError {
    ghost use Rattle.society_core.specs.declared.order.OrderError.TheVariants.{Memory};

    ghost from_gives = { λ _ fault. fault ≡ Memory };

    fn from(_fault: AllocError) -> OrderError {
        OrderError::Memory
    }
}

impl<T: Drop> From<AllocFailed<T>> for OrderError {
    ghost use Rattle.society_core.specs.declared.order.OrderError.TheVariants.{Memory};

    ghost from_gives = { λ _ fault. fault ≡ Memory };

    fn from(_fault: AllocFailed<T>) -> OrderError {
        OrderError::Memory
    }
}

/// An order that closes a pool: the right that the pool pays, an amount of 0 to 1,000,000,000,000 units of money, a cut of at
/// most 200 senders and at most 1,000 returns, each once and ascending (profile). Clauses see the kind, the amount and the two
/// lists.
#[derive(Debug, Drop)]
pub struct PoolOrder {
    kind: Kind,
    amount: u64,
    cut: Vec<TransmissionKey>,
    returns: Vec<ReturnKey>,
}

impl Model for PoolOrder {
    ghost use Rattle.society_core.specs.Orders.{IsOrder, Order};

    ghost Value = { Order };

    ghost view = { λ o. record { kind = o.kind; amount = o.amount; cut = o.cut.items; returns = o.returns.items } };

    ghost invariant = { λ o. IsOrder (record { kind = o.kind; amount = o.amount; cut = o.cut.items; returns = o.returns.items }) };
}

// The number of a transmission with a rank, where one has it.
fn transmission_number(number: u64) -> Option<TransmissionNumber>
    ensures { result ≡ number_where is_transmission_number number }
{
    let number = u32::try_from(number).ok()?;
    TransmissionNumber::from_u32(number)
}

// The number of a return, where it is within its limits.
fn return_number(number: u64) -> Option<ReturnNumber>
    ensures { result ≡ number_where is_return_number number }
{
    let number = u32::try_from(number).ok()?;
    ReturnNumber::from_u32(number)
}

// Whether a sender of a cut stands among others.
fn has_sender(sender: &(SenderKey, u64), others: &[(SenderKey, u64)]) -> bool
    ensures { result ≡ list_any (same_sender sender.now) others.now }
{
    others.iter().any(|other| sender.0 == other.0)
}

// Whether a sender stands twice in a cut. At most 200 of them are compared with each other.
fn has_repeated_sender(cut: &[(SenderKey, u64)]) -> bool
    ensures { result ≡ has_repeat same_sender cut.now }
{
    let mut rest = cut;
    while let Some((first, behind)) = rest.split_first() {
        if has_sender(first, behind) {
            return true;
        }
        rest = behind;
    }
    false
}

// Whether a return stands among others.
fn has_return(named: &(Reporter, u64), others: &[(Reporter, u64)]) -> bool
    ensures { result ≡ list_any (same_numbered named.now) others.now }
{
    others
        .iter()
        .any(|other| named.0 == other.0 && named.1 == other.1)
}

// Whether a return is named twice. At most 1,000 of them are compared with each other.
fn has_repeated_return(returns: &[(Reporter, u64)]) -> bool
    ensures { result ≡ has_repeat same_numbered returns.now }
{
    let mut rest = returns;
    while let Some((first, behind)) = rest.split_first() {
        if has_return(first, behind) {
            return true;
        }
        rest = behind;
    }
    false
}

// Whether the numbers of a cut are all within their limits.
fn are_transmission_numbers(cut: &[(SenderKey, u64)]) -> bool
    ensures { result ≡ list_all (λ c. is_transmission_number c.1) cut.now }
{
    cut.iter().all(|key| transmission_number(key.1).is_some())
}

// Whether the numbers of returns are all within their limits.
fn are_return_numbers(returns: &[(Reporter, u64)]) -> bool
    ensures { result ≡ list_all (λ r. is_return_number r.1) returns.now }
{
    returns.iter().all(|key| return_number(key.1).is_some())
}

// Whether a number is out of its range.
fn is_out_of_range(amount: u64, cut: &[(SenderKey, u64)], returns: &[(Reporter, u64)]) -> bool
    ensures { result ≡ is_out_of_range amount cut.now returns.now }
{
    amount > GREATEST_AMOUNT || !are_transmission_numbers(cut) || !are_return_numbers(returns)
}

// The least fault of an order's numbers. It takes no memory.
fn order_fault(
    amount: u64,
    cut: &[(SenderKey, u64)],
    returns: &[(Reporter, u64)],
) -> Option<OrderFault>
    ensures { result ≡ order_fault amount cut.now returns.now }
{
    if is_out_of_range(amount, cut, returns) {
        return Some(OrderFault::OutOfRange);
    }
    if cut.len() > MOST_SENDERS || returns.len() > MOST_RETURNS {
        return Some(OrderFault::TooLong);
    }
    if has_repeated_sender(cut) || has_repeated_return(returns) {
        return Some(OrderFault::NamedTwice);
    }
    None
}

// The key of a sender's transmission.
fn transmission_key(sender: SenderKey, number: u64) -> TransmissionKey
    requires { is_transmission_number number ≡ true }
    ensures key { result ≡ transmission_key sender number }
    ensures sender { is_sender_key sender ≡ true }
{
    let Some(number) = transmission_number(number) else {
        unreachable!();
    };
    TransmissionKey { sender, number }
}

// The keys of a cut, in the order in which it was given.
fn transmission_keys(
    alloc: Global,
    cut: &[(SenderKey, u64)],
) -> Result<Vec<TransmissionKey>, AllocError>
    requires { list_all (λ c. is_transmission_number c.1) cut.now ≡ true }
    ensures keys { IfOk result (λ keys. keys.items ≡ map (λ c. transmission_key c.0 c.1) cut.now) }
    ensures senders { IfOk result (λ _. list_all (λ c. is_sender_key c.0) cut.now ≡ true) }
{
    let mut keys = Vec::with_capacity(alloc, cut.len())?;
    for (sender, number) in cut {
        keys.push(transmission_key(*sender, *number))?;
    }
    Ok(keys)
}

// The set of some keys of transmissions. A call of its own for the proof, which cites what it collects.
fn distinct_transmissions(
    alloc: Global,
    keys: Vec<TransmissionKey>,
) -> Result<BTreeSet<TransmissionKey>, AllocError>
    ensures { IfOk result (IsFromIterResult transmission_cmp keys.items) }
{
    keys.into_iter().collect(alloc)
}

// The keys of a cut, ascending.
fn ascending_cut(
    alloc: Global,
    cut: &[(SenderKey, u64)],
) -> Result<Vec<TransmissionKey>, AllocError>
    requires { list_all (λ c. is_transmission_number c.1) cut.now ≡ true }
    ensures keys { IfOk result (λ keys. keys.items ≡ ascending transmission_cmp (map (λ c. transmission_key c.0 c.1) cut.now)) }
    ensures senders { IfOk result (λ _. list_all (λ c. is_sender_key c.0) cut.now ≡ true) }
{
    let keys = distinct_transmissions(alloc, transmission_keys(alloc, cut)?)?;
    keys.iter().copied().collect(alloc)
}

// The key of a reporter's return.
fn return_key(reporter: Reporter, number: u64) -> ReturnKey
    requires { is_return_number number ≡ true }
    ensures { result ≡ return_key reporter number }
{
    let Some(number) = return_number(number) else {
        unreachable!();
    };
    ReturnKey { reporter, number }
}

// The keys of returns, in the order in which they were given.
fn return_keys(alloc: Global, returns: &[(Reporter, u64)]) -> Result<Vec<ReturnKey>, AllocError>
    requires { list_all (λ r. is_return_number r.1) returns.now ≡ true }
    ensures { IfOk result (λ keys. keys.items ≡ map (λ r. return_key r.0 r.1) returns.now) }
{
    let mut keys = Vec::with_capacity(alloc, returns.len())?;
    for (reporter, number) in returns {
        keys.push(return_key(*reporter, *number))?;
    }
    Ok(keys)
}

// The set of some keys of returns. A call of its own for the proof, which cites what it collects.
fn distinct_returns(alloc: Global, keys: Vec<ReturnKey>) -> Result<BTreeSet<ReturnKey>, AllocError>
    ensures { IfOk result (IsFromIterResult return_cmp keys.items) }
{
    keys.into_iter().collect(alloc)
}

// The keys of returns, ascending.
fn ascending_returns(
    alloc: Global,
    returns: &[(Reporter, u64)],
) -> Result<Vec<ReturnKey>, AllocError>
    requires { list_all (λ r. is_return_number r.1) returns.now ≡ true }
    ensures { IfOk result (λ keys. keys.items ≡ ascending return_cmp (map (λ r. return_key r.0 r.1) returns.now)) }
{
    let keys = distinct_returns(alloc, return_keys(alloc, returns)?)?;
    keys.iter().copied().collect(alloc)
}

impl PoolOrder {
    /// The order of this kind that these numbers make, those of the cut by their ranks (`TransmissionNumber`); else the least fault of them
    /// all. Memory may run out only where they make an order.
    pub fn new(
        alloc: Global,
        kind: Kind,
        amount: u64,
        cut: &[(SenderKey, u64)],
        returns: &[(Reporter, u64)],
    ) -> Result<PoolOrder, OrderError>
        ensures { OrdersAs kind amount cut.now returns.now result }
    {
        if let Some(fault) = order_fault(amount, cut, returns) {
            return Err(OrderError::Order(fault));
        }
        let cut = ascending_cut(alloc, cut)?;
        let returns = ascending_returns(alloc, returns)?;
        Ok(PoolOrder {
            kind,
            amount,
            cut,
            returns,
        })
    }

    /// The right that the pool pays.
    pub fn kind(&self) -> Kind
        ensures { result ≡ self.now.kind }
    {
        self.kind
    }

    /// Units of money that the pool has, 0 to 1,000,000,000,000.
    pub fn amount(&self) -> u64
        ensures value { result ≡ self.now.amount }
        ensures limit { result ≤ 1000000000000 }
    {
        self.amount
    }

    /// Of each sender its last transmission that counts, ascending by sender, at most 200.
    pub fn cut(&self) -> &[TransmissionKey]
        ensures value { result.now ≡ self.now.cut }
        ensures limit { length result.now ≤ 200 }
    {
        self.cut.as_slice()
    }

    /// The returns that are paid, ascending, at most 1,000.
    pub fn returns(&self) -> &[ReturnKey]
        ensures value { result.now ≡ self.now.returns }
        ensures limit { length result.now ≤ 1000 }
        ensures kept { IsOrder self.now }
    {
        self.returns.as_slice()
    }

    /// Whether two orders are one: equal kinds, amounts, cuts and returns, in whatever order these were given.
    pub fn is_same(&self, other: &PoolOrder) -> bool
        ensures { result ≡ same_order self.now other.now }
    {
        self.kind == other.kind
            && self.amount == other.amount
            && self.cut == other.cut
            && self.returns == other.returns
    }

    /// Whether the order names a return.
    pub fn names(&self, key: &ReturnKey) -> bool
        ensures { result ≡ names_return key.now self.now }
    {
        self.returns.iter().any(|named| named == key)
    }

    /// A copy; `AllocError` for want of memory.
    pub fn try_clone(&self, alloc: Global) -> Result<PoolOrder, AllocError>
        ensures copy { IfOk result (λ order. order ≡ self.now) }
        ensures order { IsOrder self.now }
    {
        Ok(PoolOrder {
            kind: self.kind,
            amount: self.amount,
            cut: Vec::from_slice(alloc, &self.cut)?,
            returns: Vec::from_slice(alloc, &self.returns)?,
        })
    }
}

/// Orders are sets: orders of one kind and one amount with the same transmissions in their cuts and the same returns are one, in
/// whatever order and however often these were given (profile).
pub fn orders_are_sets()
    ensures { OrdersAreSets }
{}
