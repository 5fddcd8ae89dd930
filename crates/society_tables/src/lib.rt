//! The office's book in SQLite as a store.
#![tactic(auto)]

mod fault;
mod tables;

pub use tables::Tables;
