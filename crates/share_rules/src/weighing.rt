//! Who holds a work, and with which weight.
ghost use Rattle.std.specs.Prelude.{◌≡◌, IfOk, None};
ghost use Rattle.share_rules.specs.Fault.{fault_of};
ghost use Rattle.share_rules.specs.Weights.{AreWholeWeights, unclaimed_beside, weights_of};

use crate::holder::Holder;
use crate::holding::{Basis, holders_among};
use crate::kind::Kind;
use crate::office::Office;
use cwr_files::Transaction;
use cwr_records::WHOLE;
use std::alloc::{AllocError, Global};
use work_ids::{Account, SenderKey};

// What nobody claims beside some holders.
fn unclaimed_beside(holders: &[Holder]) -> Holder
    ensures { result ≡ unclaimed_beside holders.now }
{
    let mut weight = WHOLE;
    for holder in holders {
        weight = weight.saturating_sub(holder.weight);
    }
    Holder {
        account: Account::Unclaimed,
        weight,
    }
}

/// The holders of a transaction in record order, each with the weight of its collection share of a right at the office,
/// and behind them what nobody claims (profile); an error where memory runs out. Without a fault the weights of either right
/// are the whole or, for what is let pass, up to 10,006 hundredths of a percent.
#[tactic(auto, using(crate::proofs::lemmas::Whole::clean_is_whole), unfolding(crate::specs::Weights::weights_of))]
pub fn weights(
    alloc: Global,
    kind: Kind,
    sender: &SenderKey,
    transaction: &Transaction<'_>,
    office: &Office,
) -> Result<Vec<Holder>, AllocError>
    ensures weights { IfOk result (λ holders. holders.items ≡ weights_of kind sender.now office.now transaction.now) }
    ensures total { fault_of office.now transaction.now ≡ None → IfOk result (λ holders. AreWholeWeights holders.items) }
{
    let basis = Basis {
        kind,
        sender,
        office,
    };
    let mut holders = holders_among(alloc, &basis, transaction.records.as_slice())?;
    let unclaimed = unclaimed_beside(holders.as_slice());
    holders.push(unclaimed)?;
    Ok(holders)
}
