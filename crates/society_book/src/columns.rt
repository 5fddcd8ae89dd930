//! How counts, accounts and the want of an ISRC stand in columns.
ghost use Rattle.std.specs.Prelude.{◌≡◌, pos, FitsSigned, IfOk};
ghost use Rattle.std.specs.Int.{w64};
ghost use Rattle.work_ids.specs.Account.{account_text};

use society_rows::RowFault;
use std::alloc::{AllocError, Global};
use work_ids::Account;

/// What stands in place of an ISRC where a credit is of no recording.
pub const NO_ISRC: &[u8] = b"-";

/// A count as a column has it; `Overflow` where it has no room there.
pub fn column_of(count: u64) -> Result<i64, RowFault>
    ensures value { IfOk result (λ n. n ≡ pos count) }
    ensures range { IfOk result (λ n. FitsSigned w64 n) }
{
    match i64::try_from(count) {
        Ok(n) => Ok(n),
        Err(_) => Err(RowFault::Overflow),
    }
}

/// The text of an account.
pub fn text_of(alloc: Global, account: &Account) -> Result<Vec<u8>, AllocError>
    ensures { IfOk result (λ text. text.items ≡ account_text account.now) }
{
    let (kind, owner, number) = account.pieces();
    let mut text = Vec::new(alloc);
    text.extend_from_slice(kind)?;
    text.extend_from_slice(owner)?;
    text.extend_from_slice(number)?;
    Ok(text)
}
