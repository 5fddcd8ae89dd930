//! What the program does by its arguments: `replay` serves a reader to a writer over a book in memory, `serve` serves connections on
//! this machine over the database at a path, `audit` tells whether that database is sound, `credit` tells what orders would
//! credit over it, `--help` tells of these.
#![tactic(auto)]

mod auditing;
mod closing;
mod crediting;
mod file_tables;
mod left;
mod listened;
mod machine;
mod opening;
mod replaying;
mod serving;
mod starting;
mod trouble;

pub use file_tables::FileTables;
pub use left::Left;
pub use listened::Listened;
pub use machine::OpenDatabase;
pub use replaying::BROKEN_OFF;
pub use starting::{NoWords, exit_status, start, why_no_words};
pub use trouble::{Trouble, tell};
