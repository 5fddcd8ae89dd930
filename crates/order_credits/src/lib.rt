//! What an order would credit, recording by recording, and why: read out of the tables of an office's book, whether or not pools have paid
//! its returns.
//!
//! Each call holds over the tables of layout 3 where the disk told the truth, and leaves them as they were.
#![tactic(auto)]

mod crediting;
mod numbers;
mod owners;
mod parts;
mod refusing;
mod share;
mod sharing;
mod sought;
mod versions;

pub use crediting::credit_order;
pub use parts::Parts;
pub use share::{OwnedVersion, RecordingShare};
