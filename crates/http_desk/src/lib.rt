//! A connection to the office's desk: requests are read from any reader, and their answers written to any writer.
#![tactic(auto)]

mod answering;
mod body_length;
mod connection;
mod counted;
mod fault;
mod feeding;
mod head;
mod input;
mod laws;
mod outbox;
mod reply;
mod room;
mod upcoming;

pub use connection::{Served, serve};
pub use counted::{Counted, NotWritten};
pub use fault::{DeskFault, FaultKind};
pub use input::Input;
pub use laws::{one_cutting, what_was_answered_stays};
