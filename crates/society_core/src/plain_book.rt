//! The book in memory.
ghost use Rattle.std.specs.Prelude.{◌≡◌, ◌&&◌, IfOk, None, OnOk, OnErr, bytes_eq, if◌then◌else◌, is_some, map, nat_le, not, option_map, true, unwrap_or, ℕ, List};
ghost use Rattle.std.specs.FinMap as finite;
ghost use Rattle.std.specs.BTreeMap as tree;
ghost use Rattle.std.specs.BTreeMap.{IsOrdered, is_at, keys, values};
ghost use Rattle.std.specs.List.{find};
ghost use Rattle.std.specs.Ordering.{nat_cmp};
ghost use Rattle.std.specs.List.Sorted.{IsStrictlySortedBy};
ghost use Rattle.sender_segments.specs.Ways.{end_stated};
ghost use Rattle.society_core.specs.Answers.{payer, place_in_book, pool_of};
ghost use Rattle.society_core.specs.Book.{AreOrderly, IsSound, body_at, empty_book, end_at, front, front_in, held, is_in_line, numbers_to, order_at, return_at, with_end, with_pool, with_return, with_transmission};
ghost use Rattle.society_core.specs.Ends.{is_past, last_number_of, number_past, place_stated};
ghost use Rattle.society_core.specs.Keys.{bytes_cmp, transmission_cmp};
ghost use Rattle.society_core.specs.Orders.{IsOrder, names_return};
ghost use Rattle.society_core.specs.PlainLines.{has, numbers_passing};
ghost use Rattle.society_core.specs.PlainMaps.{HasFronts, IsReachedBy, ends_kept, transmissions_of};

use crate::line::{Line, front_on};
use crate::order::PoolOrder;
use crate::return_key::ReturnKey;
use crate::segment_key::SegmentKey;
use crate::store::NumberPlace;
use crate::transmission_key::TransmissionKey;
use std::alloc::{AllocError, Global};
use std::collections::BTreeMap;
use std::marker::Model;
use work_ids::{PoolNumber, SegmentEnd, SegmentPlace, SenderKey, TransmissionNumber};

/// The four maps of the book, and each sender's front, so that no put counts from 1. Clauses see the book.
#[derive(Drop)]
pub struct PlainBook {
    transmissions: BTreeMap<TransmissionKey, Vec<u8>>,
    ends: BTreeMap<SegmentKey, SegmentEnd>,
    returns: BTreeMap<ReturnKey, Vec<u8>>,
    pools: BTreeMap<PoolNumber, PoolOrder>,
    fronts: BTreeMap<SenderKey, u32>,
}

impl Model for PlainBook {
    ghost use Rattle.society_core.specs.Book.{Book};
    ghost use Rattle.society_core.specs.Orders.{IsOrder, names_return};
    ghost use Rattle.std.specs.FinMap as finite;
    ghost use Rattle.society_core.specs.PlainMaps.{HasFronts, bodies_of, coded_book, plain_book, stated_by};

    ghost Value = { Book };

    ghost coded = { coded_book };

    ghost view = { λ b. plain_book b.transmissions.entries b.ends.entries b.returns.entries b.pools.entries };

    ghost invariant = { λ b. HasFronts b.fronts (finite.from_entries (bodies_of b.transmissions.entries)) (finite.from_entries (stated_by b.ends.entries)) };
}

// The numbers under which a sender has entries and that are not in its line; entries are in the order of their keys. A call
// of its own for the proof: a clause of a method sees the book, and not the map.
fn numbers_apart(
    alloc: Global,
    entries: &BTreeMap<TransmissionKey, Vec<u8>>,
    sender: &SenderKey,
    line: &Line<'_>,
) -> Result<Vec<TransmissionNumber>, AllocError>
    ensures numbers { IfOk result (λ numbers. numbers.items ≡ numbers_passing (λ k. bytes_eq k.sender sender.now && not (has line.now k.number)) (keys entries.now)) }
    ensures ordered { IsStrictlySortedBy transmission_cmp (keys entries.now) }
{
    entries
        .keys()
        .filter(|key| key.sender == *sender && !line.has(key.number))
        .map(|key| key.number)
        .collect(alloc)
}

// The numbers of a sender's line up to one of them.
fn numbers_within(
    alloc: Global,
    entries: &BTreeMap<TransmissionKey, Vec<u8>>,
    sender: &SenderKey,
    line: &Line<'_>,
    last: u32,
) -> Result<Vec<TransmissionNumber>, AllocError>
    ensures numbers { IfOk result (λ numbers. numbers.items ≡ numbers_passing (λ k. bytes_eq k.sender sender.now && (has line.now k.number && nat_le k.number last)) (keys entries.now)) }
    ensures ordered { IsStrictlySortedBy transmission_cmp (keys entries.now) }
{
    entries
        .keys()
        .filter(|key| key.sender == *sender && line.has(key.number) && key.number.value() <= last)
        .map(|key| key.number)
        .collect(alloc)
}

// Whether a number is one of a segment, above a last one.
fn is_past(number: TransmissionNumber, end: &SegmentEnd) -> bool
    ensures { result ≡ is_past (place_stated end.now) end.now.last number }
{
    number.segment() == end.segment() && end.last() < number.sequence()
}

// Whether a key is of a sender and of a number above the end of its segment.
fn is_key_past(key: &TransmissionKey, sender: &SenderKey, end: &SegmentEnd) -> bool
    ensures { result ≡ (bytes_eq key.now.sender sender.now && is_past (place_stated end.now) end.now.last key.now.number) }
{
    key.sender == *sender && is_past(key.number, end)
}

// The greatest number of a sender's entries that is above the end of its segment; entries are in the order of their keys.
fn number_past(
    entries: &BTreeMap<TransmissionKey, Vec<u8>>,
    sender: &SenderKey,
    end: &SegmentEnd,
) -> Option<TransmissionNumber>
    ensures number { result ≡ last_number_of (numbers_passing (λ k. bytes_eq k.sender sender.now && is_past (place_stated end.now) end.now.last k.number) (keys entries.now)) }
    ensures ordered { IsStrictlySortedBy transmission_cmp (keys entries.now) }
{
    let mut last = None;
    for key in entries.keys() {
        if is_key_past(key, sender, end) {
            last = Some(key.number);
        }
    }
    last
}

// The pool of the first order that names a return; entries are in the order of their pools. A call of its own for the
// proof: a clause of a method sees the book, and not the map.
fn payer_in(entries: &BTreeMap<PoolNumber, PoolOrder>, key: &ReturnKey) -> Option<PoolNumber>
    ensures pool { result ≡ pool_of (find (λ entry. names_return key.now entry.1) entries.now.entries) }
    ensures ordered { IsOrdered nat_cmp entries.now }
{
    let mut payer = None;
    for (pool, order) in entries.iter() {
        if payer.is_none() && order.names(key) {
            payer = Some(*pool);
        }
    }
    payer
}

// The orders of all pools; entries are in the order of their pools. A call of its own for the proof: a clause of a method
// sees the book, and not the map.
fn orders_in(
    alloc: Global,
    entries: &BTreeMap<PoolNumber, PoolOrder>,
) -> Result<Vec<&PoolOrder>, AllocError>
    ensures orders { IfOk result (λ orders. map (λ order. order.now) orders.items ≡ values entries.now) }
    ensures ordered { IsOrdered nat_cmp entries.now }
{
    entries.values().collect(alloc)
}

// Keeps a front of 0 for a sender that has none, so that its front can be raised without memory.
fn keep_front(fronts: &mut BTreeMap<SenderKey, u32>, sender: SenderKey) -> Result<(), AllocError>
    ensures same { (s : List ℕ) → unwrap_or (tree.get bytes_cmp fronts.new s) 0 ≡ unwrap_or (tree.get bytes_cmp fronts.old s) 0 }
    ensures there { OnOk result (is_some (tree.get bytes_cmp fronts.new sender) ≡ true) }
{
    if !fronts.contains_key(&sender) {
        fronts.insert(sender, 0)?;
    }
    Ok(())
}

// Raises a sender's front, which is kept, from one that is reached to where it stands now.
fn raise_front(
    transmissions: &BTreeMap<TransmissionKey, Vec<u8>>,
    ends: &BTreeMap<SegmentKey, SegmentEnd>,
    fronts: &mut BTreeMap<SenderKey, u32>,
    sender: &SenderKey,
) -> u32
    requires kept { is_some (tree.get bytes_cmp fronts.old sender.now) ≡ true }
    requires reached { IsReachedBy fronts.old (transmissions_of transmissions.now) (ends_kept ends.now) sender.now }
    requires orderly { AreOrderly (transmissions_of transmissions.now) (ends_kept ends.now) sender.now }
    ensures front { result ≡ front_in (transmissions_of transmissions.now) (ends_kept ends.now) sender.now }
    ensures put { (s : List ℕ) → unwrap_or (tree.get bytes_cmp fronts.new s) 0 ≡ (if is_at (bytes_cmp sender.now) s then result else unwrap_or (tree.get bytes_cmp fronts.old s) 0) }
{
    let reached = fronts.get(sender).copied().unwrap_or(0);
    let front = front_on(transmissions, ends, sender, reached);
    if fronts.insert(*sender, front).is_err() {
        unreachable!();
    }
    front
}

// Keeps a body among transmissions whose fronts are kept beside them, and tells its sender's front then; nothing is added
// for want of memory. A call of its own for the proof: a clause of a method sees the book, and not the maps.
fn insert_with_front(
    transmissions: &mut BTreeMap<TransmissionKey, Vec<u8>>,
    ends: &BTreeMap<SegmentKey, SegmentEnd>,
    fronts: &mut BTreeMap<SenderKey, u32>,
    key: TransmissionKey,
    body: Vec<u8>,
) -> Result<u32, AllocError>
    requires fronts { HasFronts fronts.old (transmissions_of transmissions.old) (ends_kept ends.now) }
    requires free { finite.get (transmissions_of transmissions.old) key ≡ None }
    requires orderly { (s : List ℕ) → AreOrderly (transmissions_of transmissions.old) (ends_kept ends.now) s }
    requires after { (s : List ℕ) → AreOrderly (finite.insert (transmissions_of transmissions.old) key body.items) (ends_kept ends.now) s }
    ensures ok { OnOk result (transmissions_of transmissions.new ≡ finite.insert (transmissions_of transmissions.old) key body.items) }
    ensures err { OnErr result (transmissions_of transmissions.new ≡ transmissions_of transmissions.old) }
    ensures fronts { HasFronts fronts.new (transmissions_of transmissions.new) (ends_kept ends.now) }
    ensures front { IfOk result (λ n. n ≡ front_in (transmissions_of transmissions.new) (ends_kept ends.now) key.sender) }
{
    keep_front(fronts, key.sender)?;
    transmissions.insert(key, body)?;
    Ok(raise_front(transmissions, ends, fronts, &key.sender))
}

// Keeps an end among others, beside transmissions and fronts, and tells its sender's front then; nothing is added for want
// of memory.
fn insert_end_with_front(
    transmissions: &BTreeMap<TransmissionKey, Vec<u8>>,
    ends: &mut BTreeMap<SegmentKey, SegmentEnd>,
    fronts: &mut BTreeMap<SenderKey, u32>,
    key: SegmentKey,
    end: SegmentEnd,
) -> Result<u32, AllocError>
    requires fronts { HasFronts fronts.old (transmissions_of transmissions.now) (ends_kept ends.old) }
    requires free { finite.get (ends_kept ends.old) key ≡ None }
    requires orderly { (s : List ℕ) → AreOrderly (transmissions_of transmissions.now) (ends_kept ends.old) s }
    requires after { (s : List ℕ) → AreOrderly (transmissions_of transmissions.now) (finite.insert (ends_kept ends.old) key (end_stated end)) s }
    ensures ok { OnOk result (ends_kept ends.new ≡ finite.insert (ends_kept ends.old) key (end_stated end)) }
    ensures err { OnErr result (ends_kept ends.new ≡ ends_kept ends.old) }
    ensures fronts { HasFronts fronts.new (transmissions_of transmissions.now) (ends_kept ends.new) }
    ensures front { IfOk result (λ n. n ≡ front_in (transmissions_of transmissions.now) (ends_kept ends.new) key.sender) }
{
    keep_front(fronts, key.sender)?;
    ends.insert(key, end)?;
    Ok(raise_front(transmissions, ends, fronts, &key.sender))
}

impl PlainBook {
    /// The book of an office to which nothing has come.
    pub fn new(alloc: Global) -> PlainBook
        ensures { result ≡ empty_book }
    {
        PlainBook {
            transmissions: BTreeMap::new(alloc),
            ends: BTreeMap::new(alloc),
            returns: BTreeMap::new(alloc),
            pools: BTreeMap::new(alloc),
            fronts: BTreeMap::new(alloc),
        }
    }

    /// The body of a sender's transmission.
    pub fn transmission(&self, sender: &SenderKey, number: TransmissionNumber) -> Option<&Vec<u8>>
        ensures { option_map (λ body. body.now.items) result ≡ body_at self.now sender.now number }
    {
        let key = TransmissionKey {
            sender: *sender,
            number,
        };
        self.transmissions.get(&key)
    }

    /// The body of a return.
    pub fn performances(&self, key: &ReturnKey) -> Option<&Vec<u8>>
        ensures { option_map (λ body. body.now.items) result ≡ return_at self.now key.now }
    {
        self.returns.get(key)
    }

    /// The order of a pool.
    pub fn order(&self, pool: PoolNumber) -> Option<&PoolOrder>
        ensures { option_map (λ order. order.now) result ≡ order_at self.now pool }
    {
        self.pools.get(&pool)
    }

    /// The orders of all pools, in the order of the pools.
    pub fn orders(&self, alloc: Global) -> Result<Vec<&PoolOrder>, AllocError>
        ensures { IfOk result (λ orders. map (λ order. order.now) orders.items ≡ finite.values self.now.pools) }
    {
        orders_in(alloc, &self.pools)
    }

    /// A sender's front.
    pub fn front(&self, sender: &SenderKey) -> u32
        ensures { result ≡ front self.now sender.now }
    {
        self.fronts.get(sender).copied().unwrap_or(0)
    }

    /// The end that a sender stated of a segment.
    pub fn end(&self, sender: &SenderKey, segment: SegmentPlace) -> Option<&SegmentEnd>
        ensures { option_map (λ end. end_stated end.now) result ≡ end_at self.now sender.now segment }
    {
        let key = SegmentKey {
            sender: *sender,
            segment,
        };
        self.ends.get(&key)
    }

    /// Whether a number is in a sender's line.
    pub fn is_applied(&self, sender: &SenderKey, number: TransmissionNumber) -> bool
        requires { IsSound self.now }
        ensures { result ≡ is_in_line self.now sender.now number }
    {
        let front = self.front(sender);
        Line::new(&self.transmissions, &self.ends, sender, front).has(number)
    }

    /// Where a number of a sender stands.
    pub fn place(&self, sender: &SenderKey, number: TransmissionNumber) -> NumberPlace
        requires { IsSound self.now }
        ensures { result ≡ place_in_book self.now sender.now number }
    {
        NumberPlace {
            front: self.front(sender),
            is_applied: self.is_applied(sender, number),
        }
    }

    /// The numbers of a sender's line up to one of them, in order.
    pub fn numbers_to(
        &self,
        alloc: Global,
        sender: &SenderKey,
        last: u32,
    ) -> Result<Vec<TransmissionNumber>, AllocError>
        requires { IsSound self.now }
        ensures { IfOk result (λ numbers. numbers.items ≡ numbers_to self.now sender.now last) }
    {
        let front = self.front(sender);
        let line = Line::new(&self.transmissions, &self.ends, sender, front);
        numbers_within(alloc, &self.transmissions, sender, &line, last)
    }

    /// The numbers of a sender's held transmissions, ascending.
    pub fn held_numbers(
        &self,
        alloc: Global,
        sender: &SenderKey,
    ) -> Result<Vec<TransmissionNumber>, AllocError>
        requires { IsSound self.now }
        ensures { IfOk result (λ numbers. numbers.items ≡ held self.now sender.now) }
    {
        let front = self.front(sender);
        let line = Line::new(&self.transmissions, &self.ends, sender, front);
        numbers_apart(alloc, &self.transmissions, sender, &line)
    }

    /// The greatest number of a sender's transmissions that is above the end of its segment.
    pub fn number_past(&self, sender: &SenderKey, end: &SegmentEnd) -> Option<TransmissionNumber>
        ensures { result ≡ number_past self.now sender.now (place_stated end.now) end.now.last }
    {
        number_past(&self.transmissions, sender, end)
    }

    /// The pool that names a return.
    pub fn payer(&self, key: &ReturnKey) -> Option<PoolNumber>
        ensures { result ≡ payer self.now key.now }
    {
        payer_in(&self.pools, key)
    }

    /// Keeps a body, as it lies, as that of a sender's transmission, and tells where its number stands then; unchanged for
    /// want of memory.
    pub fn insert_transmission(
        &mut self,
        sender: &SenderKey,
        number: TransmissionNumber,
        body: Vec<u8>,
    ) -> Result<NumberPlace, AllocError>
        requires sound { IsSound self.old }
        requires free { body_at self.old sender.now number ≡ None }
        requires after { IsSound (with_transmission self.old sender.now number body.items) }
        ensures ok { OnOk result (self.new ≡ with_transmission self.old sender.now number body.items) }
        ensures place { IfOk result (λ place. place ≡ place_in_book self.new sender.now number) }
        ensures err { OnErr result (self.new ≡ self.old) }
    {
        let key = TransmissionKey {
            sender: *sender,
            number,
        };
        let front = insert_with_front(
            &mut self.transmissions,
            &self.ends,
            &mut self.fronts,
            key,
            body,
        )?;
        let line = Line::new(&self.transmissions, &self.ends, sender, front);
        Ok(NumberPlace {
            front,
            is_applied: line.has(number),
        })
    }

    /// Keeps an end that a sender stated, and tells the sender's front then, as a rank; unchanged for want of memory.
    pub fn insert_end(&mut self, sender: &SenderKey, end: &SegmentEnd) -> Result<u32, AllocError>
        requires sound { IsSound self.old }
        requires free { end_at self.old sender.now (place_stated end.now) ≡ None }
        requires after { IsSound (with_end self.old sender.now (place_stated end.now) (end_stated end.now)) }
        ensures ok { OnOk result (self.new ≡ with_end self.old sender.now (place_stated end.now) (end_stated end.now)) }
        ensures front { IfOk result (λ n. n ≡ front self.new sender.now) }
        ensures err { OnErr result (self.new ≡ self.old) }
    {
        let key = SegmentKey {
            sender: *sender,
            segment: end.place(),
        };
        insert_end_with_front(
            &self.transmissions,
            &mut self.ends,
            &mut self.fronts,
            key,
            *end,
        )
    }

    /// Keeps a copy of a body as that of a return; unchanged for want of memory.
    pub fn insert_return(
        &mut self,
        alloc: Global,
        key: &ReturnKey,
        body: &[u8],
    ) -> Result<(), AllocError>
        ensures ok { OnOk result (self.new ≡ with_return self.old key.now body.now) }
        ensures err { OnErr result (self.new ≡ self.old) }
    {
        let copy = Vec::from_slice(alloc, body)?;
        self.returns.insert(*key, copy)?;
        Ok(())
    }

    /// Keeps a copy of an order as that of a pool; unchanged for want of memory.
    pub fn insert_pool(
        &mut self,
        alloc: Global,
        pool: PoolNumber,
        order: &PoolOrder,
    ) -> Result<(), AllocError>
        ensures ok { OnOk result (self.new ≡ with_pool self.old pool order.now) }
        ensures err { OnErr result (self.new ≡ self.old) }
        ensures order { IsOrder order.now }
    {
        let copy = order.try_clone(alloc)?;
        self.pools.insert(pool, copy)?;
        Ok(())
    }
}
