//! What the credits of a pool come to, an account at a time.
ghost use Rattle.std.specs.Prelude.{◌≡◌, ◌∷◌, ◌++◌, [], IfOk, IsPermutation, IsTrue, OnOk};
ghost use Rattle.society_closings.specs.Closings.{ComeToTheSame};

use pool_split::Credit;
use society_rows::RowFault;
use std::alloc::{AllocError, Global};
use work_ids::Account;

// Whether two accounts are one.
fn is_same(account: &Account, other: &Account) -> bool
    ensures { IsTrue result → account.now ≡ other.now }
{
    account == other
}

// A total with the units of a credit, where that is of its account; else the total is appended, and the credit is the next one.
fn next_total(total: Credit, credit: &Credit, totals: &mut Vec<Credit>) -> Result<Credit, RowFault>
    ensures { IfOk result (λ next. ComeToTheSame (totals.new.items ++ next ∷ []) (totals.old.items ++ total ∷ credit.now ∷ [])) }
{
    if is_same(&total.account, &credit.account) {
        let Some(units) = total.units.checked_add(credit.units) else {
            return Err(RowFault::Overflow);
        };
        return Ok(Credit {
            isrc: None,
            account: total.account,
            units,
        });
    }
    totals.push(total)?;
    Ok(*credit)
}

// The totals of credits, one for each run of credits of one account.
fn totals_of_runs(alloc: Global, credits: &[Credit]) -> Result<Vec<Credit>, RowFault>
    ensures { IfOk result (λ totals. ComeToTheSame totals.items credits.now) }
{
    let mut totals = Vec::new(alloc);
    let Some((first, rest)) = credits.split_first() else {
        return Ok(totals);
    };
    let mut total = *first;
    for credit in rest {
        total = next_total(total, credit, &mut totals)?;
    }
    totals.push(total)?;
    Ok(totals)
}

// Credits in the order of their accounts.
fn by_account(alloc: Global, credits: &[Credit]) -> Result<Vec<Credit>, AllocError>
    ensures { IfOk result (λ sorted. IsPermutation credits.now sorted.items) }
{
    let mut sorted = Vec::from_slice(alloc, credits)?;
    sorted.sort_by_key(|credit| credit.account)?;
    Ok(sorted)
}

// The totals of credits, one for each account: they come to the same balances.
fn totals_of(alloc: Global, credits: &[Credit]) -> Result<Vec<Credit>, RowFault>
    ensures { IfOk result (λ totals. ComeToTheSame totals.items credits.now) }
{
    let sorted = by_account(alloc, credits)?;
    totals_of_runs(alloc, &sorted)
}

/// What the credits of a pool come to so far: credits of no recording that come to the same balances. They are brought together, one for
/// each account, once they are twice as many as they were then.
#[derive(Drop)]
pub(crate) struct PoolTotals {
    alloc: Global,
    list: Vec<Credit>,
    brought: usize,
}

impl PoolTotals {
    /// Those of no credit.
    pub(crate) fn new(alloc: Global) -> PoolTotals
        ensures { result.list.items ≡ [] }
    {
        PoolTotals {
            alloc,
            list: Vec::new(alloc),
            brought: 0,
        }
    }

    /// Adds some credits; `Memory` where memory was refused, `Overflow` where an account's units do not fit.
    pub(crate) fn add(&mut self, credits: &[Credit]) -> Result<(), RowFault>
        ensures { OnOk result (ComeToTheSame self.new.list.items (self.old.list.items ++ credits.now)) }
    {
        self.list.extend_from_slice(credits)?;
        if self.list.len() / 2 > self.brought {
            self.list = totals_of(self.alloc, &self.list)?;
            self.brought = self.list.len();
        }
        Ok(())
    }

    /// One total for each account. So each balance is read and put once.
    pub(crate) fn into_list(self) -> Result<Vec<Credit>, RowFault>
        ensures { IfOk result (λ totals. ComeToTheSame totals.items self.list.items) }
    {
        totals_of(self.alloc, &self.list)
    }
}
