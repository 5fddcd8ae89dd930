//! Connections that come in by a door and are served at the office's desk, one after another, with a line printed for each.
#![tactic(auto)]

mod connections;
mod door;
mod faults;
mod network;
mod printing;

pub use connections::serve_connections;
pub use door::{AcceptFault, Door, Listen};
pub use faults::{TURNS, print_fault};
pub use network::Network;
pub use printing::{print, print_number};
