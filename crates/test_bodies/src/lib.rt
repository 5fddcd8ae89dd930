//! The sample transmissions that the crates of tests send, and what they are made of.
#![tactic(auto)]

mod bodies;
mod changing;
mod names;

pub use bodies::{EMPTY, EXCLUDED, REGISTERED, REGISTERED_ACK, REVISED};
pub use changing::{Change, changed, joined, lines, with_unread_group};
pub use names::{holders, number, office, sender, work};
