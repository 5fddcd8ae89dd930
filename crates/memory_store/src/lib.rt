//! A store in memory, in which a row that comes in between others costs no more the more rows there are.
//!
//! The list of its trees is a store of the kit's; their rows are kept here, in order, in pieces of a hundred rows or so, so that a row that
//! comes in between others moves few of them.
#![tactic(auto)]

mod change;
mod cursor;
mod logged;
mod memory;
mod pieces;
mod rows;
mod search;

pub use memory::MemoryStore;
