//! What a pool that is closed pays, and what is written of it over a connection to the office's tables: the works of its cut that name its
//! recordings, its order, its credits and the balances.
//!
//! Each call holds over the tables of layout 3 where the disk told the truth. Outside a transaction of the caller's, an error leaves the
//! tables as they were.
#![tactic(auto)]

mod chosen;
mod closings;
mod credit_lines;
mod cut_works;
mod named_works;
mod paying;
mod pool_works;
mod totals;
mod wanted;
mod weighed_works;
mod weighing;
mod works_by_recording;

pub use chosen::version_at;
pub use credit_lines::{add_lines, line_rows, texts_of};
pub use cut_works::candidates_in;
pub use paying::{close, portions_in, tally_of};
pub use pool_works::PoolWorks;
pub use wanted::Wanted;
pub use weighing::place_after;
pub use works_by_recording::WorksByRecording;
