//! What is derived of a book, written to tables that have its own rows alone.
#![tactic(auto)]

mod balances;
mod credits;
mod derivation;
mod lines;
mod money;
mod writing;

pub use derivation::derive;
pub use writing::fault_of_writing;
