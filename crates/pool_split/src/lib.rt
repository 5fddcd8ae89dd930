//! Pools of money, split and credited to the last unit. Amounts and parts are in units of money.
#![tactic(auto)]

mod claim;
mod crediting;
pub mod laws;
mod payable;
mod portion;
mod splitting;
mod threshold;

pub use claim::{Claim, Credit, Holders};
pub use crediting::{credits, portions};
pub use payable::are_payable;
pub use portion::Portion;
pub use splitting::split;
