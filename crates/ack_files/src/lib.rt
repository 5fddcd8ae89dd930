//! The acknowledgement of a transmission, as a file of lines.
#![tactic(auto)]

mod acknowledgement;
mod lines;

pub use acknowledgement::write_ack;
