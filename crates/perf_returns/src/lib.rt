//! Performance returns: which recordings were performed, how often and how long, read from CSV (RFC 4180).
#![tactic(auto)]

mod digits;
mod fault;
mod performance;
mod performances;
mod plays;
mod reading;
mod seconds;

pub use fault::{ReturnError, ReturnFault};
pub use performance::Performance;
pub use performances::{Performances, Return};
pub use plays::Plays;
pub use reading::read_return;
pub use seconds::Seconds;
