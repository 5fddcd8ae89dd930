//! The office's book over a connection to its tables: what they answer, and what a return writes.
//!
//! Each call holds over the tables of layout 3 where the disk told the truth. Outside a transaction of the caller's, an error leaves the
//! tables as they were.
#![tactic(auto)]

mod acknowledgements;
mod bodies;
mod columns;
mod ends_known;
mod ends_read;
mod numbers;
mod orders;
mod pools;
mod returns;
mod sender_ends;
mod senders;
mod showings;
mod skips;
mod standing;
mod works;

pub use bodies::{read_body, transmission_of};
pub use columns::{NO_ISRC, column_of, text_of};
pub use ends_known::known_end_of;
pub use ends_read::{ends_in, ends_of};
pub use orders::known_pool_of;
pub use returns::{known_return_of, payment_of, write_return};
pub use sender_ends::SenderEnds;
pub use senders::{front_of, known_of, place_of, shown_front};
pub use showings::show;
pub use works::{last_version, version_of};
