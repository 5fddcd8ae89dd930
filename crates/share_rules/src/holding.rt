//! The holders of a work, with their weights.
ghost use Rattle.std.specs.Prelude.{◌≡◌, ◌≤◌, ◌++◌, ◌∷◌, [], IfOk, OnOk, length, reverse};
ghost use Rattle.share_rules.specs.Blocks.{AreLatest, holder_with, holders_from, holders_in};
ghost use Rattle.share_rules.specs.Weights.{account_by};
ghost use Rattle.work_ids.specs.IpiName.{ipi_field_of};
ghost use Rattle.work_ids.specs.PartyNumber.{party_number_of};
ghost use Rattle.work_ids.specs.declared.account.Account.{Account};

use crate::collecting::collection_shares;
use crate::holder::Holder;
use crate::kind::Kind;
use crate::latest_shares::{collected_by, note, note_all};
use crate::office::Office;
use crate::party::InterestedParty;
use crate::party_keys::{BLOCK, FEW, PartyKeys};
use crate::shares::Shares;
use cwr_records::Record;
use std::alloc::{AllocError, Global};
use work_ids::{Account, IpiName, PartyNumber, SenderKey};

/// What a work's holders are found by: the right, the sender that names the parties, and the office at which they collect.
#[derive(Drop)]
pub(crate) struct Basis<'a> {
    pub(crate) kind: Kind,
    pub(crate) sender: &'a SenderKey,
    pub(crate) office: &'a Office,
}

// The account of an interested party that a sender names: its IPI name number's where it has one, else that of the
// sender's number of it, nobody's where that is blank or wrong too (profile).
fn account(sender: &SenderKey, party: &InterestedParty<'_>) -> Account
    ensures { result ≡ account_by sender.now (ipi_field_of party.now.ipi_name) (party_number_of party.now.number) }
{
    if let Ok(Some(name)) = IpiName::from_field(&party.ipi_name.to_bytes()) {
        return Account::Ipi(name);
    }
    match PartyNumber::from_field(&party.number.to_bytes()) {
        Ok(number) if !number.is_blank() => Account::Party(*sender, number),
        _ => Account::Unclaimed,
    }
}

// Appends the holder that an interested party is with these collection shares.
fn push_holder(
    holders: &mut Vec<Holder>,
    basis: &Basis<'_>,
    party: &InterestedParty<'_>,
    shares: Shares,
) -> Result<(), AllocError>
    ensures { OnOk result (holders.new.items ≡ holders.old.items ++ holder_with basis.now party.now shares ∷ []) }
{
    let account = account(basis.sender, party);
    holders.push(Holder {
        account,
        weight: u64::from(shares.share(basis.kind).hundredths()),
    })?;
    Ok(())
}

// The holders among a few records, which are gone through for each of them.
fn few_holders(
    alloc: Global,
    basis: &Basis<'_>,
    records: &[Record<'_>],
) -> Result<Vec<Holder>, AllocError>
    ensures { IfOk result (λ holders. holders.items ≡ holders_from basis.now records.now 0) }
{
    let mut holders = Vec::new(alloc);
    for (index, record) in records.iter().enumerate() {
        if let Some(party) = InterestedParty::of(record) {
            let shares = collection_shares(&party, &records[index + 1..], basis.office);
            push_holder(&mut holders, basis, &party, shares)?;
        }
    }
    Ok(holders)
}

// Appends the holder that a record is, where it is an interested party.
fn push_record(
    holders: &mut Vec<Holder>,
    basis: &Basis<'_>,
    keys: &PartyKeys,
    latest: &[Option<Shares>],
    line: &Record<'_>,
    after: &[Record<'_>],
) -> Result<(), AllocError>
    requires room { length latest.now ≡ BLOCK }
    requires latest { AreLatest basis.now.office.now keys.now.keys latest.now after.now }
    ensures { OnOk result (holders.new.items ≡ holders.old.items ++ holders_in basis.now line.now after.now) }
{
    if let Some(party) = InterestedParty::of(line) {
        let shares = collected_by(keys, latest, &party, after, basis.office);
        push_holder(holders, basis, &party, shares)?;
    }
    Ok(())
}

// Appends the holders among the records from one on to another, the last one first, behind those after them.
fn push_block(
    holders: &mut Vec<Holder>,
    basis: &Basis<'_>,
    records: &[Record<'_>],
    start: usize,
    end: usize,
) -> Result<(), AllocError>
    requires order { start ≤ end }
    requires within { end ≤ length records.now }
    requires held { holders.old.items ≡ reverse (holders_from basis.now records.now end) }
    ensures { OnOk result (holders.new.items ≡ reverse (holders_from basis.now records.now start)) }
{
    let keys = PartyKeys::of(&records[start..end]);
    let mut latest = [None; BLOCK];
    note_all(&keys, &mut latest, &records[end..], basis.office);
    let mut index = end;
    while index > start {
        index -= 1;
        let after = &records[index + 1..];
        push_record(holders, basis, &keys, &latest, &records[index], after)?;
        note(&keys, &mut latest, &records[index], basis.office);
    }
    Ok(())
}

// The holders among many records, found block by block.
fn many_holders(
    alloc: Global,
    basis: &Basis<'_>,
    records: &[Record<'_>],
) -> Result<Vec<Holder>, AllocError>
    ensures { IfOk result (λ holders. holders.items ≡ holders_from basis.now records.now 0) }
{
    let mut holders = Vec::new(alloc);
    let mut end = records.len();
    while end > 0 {
        let start = end.saturating_sub(BLOCK);
        push_block(&mut holders, basis, records, start, end)?;
        end = start;
    }
    holders.reverse();
    Ok(holders)
}

/// The holders among some records, in record order; an error where memory runs out.
pub(crate) fn holders_among(
    alloc: Global,
    basis: &Basis<'_>,
    records: &[Record<'_>],
) -> Result<Vec<Holder>, AllocError>
    ensures { IfOk result (λ holders. holders.items ≡ holders_from basis.now records.now 0) }
{
    if records.len() <= FEW {
        few_holders(alloc, basis, records)
    } else {
        many_holders(alloc, basis, records)
    }
}
