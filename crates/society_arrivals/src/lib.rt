//! What a transmission that comes and the end of a segment that is stated write, and how far a sender's line goes on with them.
//!
//! Each call holds over the tables of layout 3 where the disk told the truth. Outside a transaction of the caller's, an error leaves the
//! tables as they were.
#![tactic(auto)]

mod arrivals;
mod going;
mod outcomes;
mod run;
mod settling;
mod statements;

pub use arrivals::arrive;
pub use going::whole_run;
pub use outcomes::{Outcome, settle_run, verdict_rows};
pub use run::{Noted, Run, ascending_works};
pub use settling::{recordings_by_key, versions_by_key};
pub use statements::state_end;
