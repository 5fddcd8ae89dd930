//! A sender's way through its segments: which of its numbers are in its line, and up to where that goes.
//!
//! A sender counts its transmissions plainly from 1, or within each year; what it states of the end of a segment leads on to the next
//! one. Numbers are taken by their ranks (`work_ids`).
#![tactic(auto)]

mod front;
mod led;

pub use front::{Numbers, first_rank, front_from, sequence};
pub use led::{is_up_to, is_up_to_end, leads};
