//! One sender's line: which of its transactions are accepted, as what, and which are rejected.
#![tactic(auto)]

mod judged;
mod line_end;
mod recordings;
mod sender_line;
mod verdict;
mod version;
mod works;

pub use judged::Judged;
pub use line_end::{LineEnd, LineFault};
pub use recordings::isrcs;
pub use sender_line::{SenderLine, judge_all};
pub use verdict::{Verdict, next_verdict};
pub use version::WorkVersion;
