//! What the program's arguments ask for: to replay, to serve a database, to audit one or to credit orders over one, each at an
//! office, or to tell of the arguments.
#![tactic(auto)]

mod command_line;
mod words;

pub use words::{Database, Listening, Words, words_in};
