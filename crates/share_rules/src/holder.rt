//! A holder of a work.
use work_ids::Account;

/// Who is credited for a work, and the weight of it in hundredths of a percent (profile).
#[derive(Clone, Copy, Debug, PartialEq, Eq)]
pub struct Holder {
    pub account: Account,
    pub weight: u64,
}
