//! What accounts have come to by credits.
ghost use Rattle.std.specs.Prelude.{◌++◌, [], List, IfErr, OnOk};
ghost use Rattle.book_audit.specs.Balances.{AddsToAccount, AreTotalsOf};
ghost use Rattle.society_book.specs.Errors.{Blames};
ghost use Rattle.pool_split.specs.Credits.{credits_together};
ghost use Rattle.pool_split.specs.declared.claim.Credit.{Credit as CreditValue};

use pool_split::{Credit, Portion};
use society_book::text_of;
use society_rows::RowFault;
use std::alloc::Global;
use std::collections::BTreeMap;

/// What accounts have come to by some credits, by the accounts' texts, in units of money.
#[derive(Drop)]
pub struct Totals {
    alloc: Global,
    /// By the accounts' texts, in units of money.
    pub units: BTreeMap<Vec<u8>, u64>,
}

// Adds units to those of an account; `Memory` where memory was refused, or the units do not fit.
fn add_units(
    units: &mut BTreeMap<Vec<u8>, u64>,
    account: Vec<u8>,
    more: u64,
) -> Result<(), RowFault>
    ensures added { OnOk result (AddsToAccount account.items more units.old units.new) }
    ensures judged { IfErr result (Blames ⊥) }
{
    let had = units.get(account.as_slice()).copied().unwrap_or(0);
    let Some(sum) = had.checked_add(more) else {
        // No book's credits come to as much.
        return Err(RowFault::Memory);
    };
    units.insert(account, sum)?;
    Ok(())
}

impl Totals {
    /// No credit.
    pub fn new(alloc: Global) -> Totals
        ensures { AreTotalsOf result [] }
    {
        Totals {
            alloc,
            units: BTreeMap::new(alloc),
        }
    }

    /// Adds some credits; `Memory` where memory was refused, or an account's units do not fit, which those of no book reach.
    pub fn add(&mut self, credits: &[Credit]) -> Result<(), RowFault>
        ensures added { OnOk result ((done : List CreditValue) → AreTotalsOf self.old done → AreTotalsOf self.new (done ++ credits.now)) }
        ensures judged { IfErr result (Blames ⊥) }
    {
        for credit in credits {
            let account = text_of(self.alloc, &credit.account)?;
            add_units(&mut self.units, account, credit.units)?;
        }
        Ok(())
    }

    /// Adds the credits of portions, one portion after another; it fails as `add` does.
    pub fn add_portions(&mut self, portions: &[Portion]) -> Result<(), RowFault>
        ensures added { OnOk result ((done : List CreditValue) → AreTotalsOf self.old done → AreTotalsOf self.new (done ++ credits_together portions.now)) }
        ensures judged { IfErr result (Blames ⊥) }
    {
        for portion in portions {
            let credits = portion.credits(self.alloc)?;
            self.add(credits.as_slice())?;
        }
        Ok(())
    }
}
