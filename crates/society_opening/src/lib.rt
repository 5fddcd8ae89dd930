//! How a database is opened and audited as an office's tables.
#![tactic(auto)]

mod auditing;
mod examining;
mod laws;
mod open_fault;
mod opening;
mod reading_fault;
mod taking_over;

pub use auditing::audit_existing;
pub use laws::{open_after_crash, reopen};
pub use open_fault::OpenFault;
pub use opening::{open, open_existing};
