//! Orders read from lines, one a line, and what each would credit, listed as comma-separated rows.
#![tactic(auto)]

mod answering;
mod lines;
mod listing;
mod order_line;
mod refusal_line;
mod rows;

pub use listing::list_credits;
