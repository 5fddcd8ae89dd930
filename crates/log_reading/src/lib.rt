//! Whether the log of a database is as a stop of the office can leave it: it is read, and nothing is written.
#![tactic(auto)]

mod behind;
mod ending;
mod fault;
mod frames;
mod header;
mod old_frames;
mod source;
mod stands;
mod words;

pub use fault::LogFault;
pub use source::ReadAt;
pub use stands::check_log;
