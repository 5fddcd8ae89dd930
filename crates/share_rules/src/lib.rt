//! The office's rules on a transaction: which faults it has, and who holds its work with which weight.
#![tactic(auto)]

mod collecting;
mod excess;
mod faults;
mod found_parties;
mod holder;
mod holding;
mod judging;
mod kind;
mod latest_shares;
mod many_faults;
mod office;
mod party;
mod party_keys;
mod party_search;
mod share_fields;
mod shares;
mod territory_row;
mod totals;
mod weighing;

pub use holder::Holder;
pub use judging::judge;
pub use kind::Kind;
pub use office::Office;
pub use weighing::weights;
