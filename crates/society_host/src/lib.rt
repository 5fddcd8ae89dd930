//! What the program does with the machine that it runs on: connections come in by its network, a database is opened in its files. All of that
//! is asked of a `Machine`, which the program gives; nothing here reaches one otherwise.
#![tactic(auto)]

mod examining;
mod files;
mod listening;
mod look;
mod machine;
mod network;
mod opening;
mod parting;
mod patience;
mod reading;
mod waits;

pub use files::HostFiles;
pub use listening::{Host, HostDoor};
pub use look::Look;
pub use machine::Machine;
pub use network::{Came, Listener, Port, Stream};
pub use opening::OpensFiles;
pub use patience::Patient;
pub use reading::ReadFiles;
