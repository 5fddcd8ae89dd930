//! The lines of a body that may still grow: how far they are read, and the fault that no further byte changes.
ghost use Rattle.std.specs.Prelude.{◌≡◌, ◌+◌, ◌^◌, ◌<◌, ◌≤◌, ℕ, List, false, length, take, drop, MatchResult};
ghost use Rattle.cwr_records.specs.Lines.{has_line_end};
ghost use Rattle.cwr_files.specs.Prefixes.{IsSettled};
ghost use Rattle.cwr_files.specs.ReadTo.{IsReadTo, IsPending, HasReadLines};

use crate::counts::{Counts, step};
use crate::fault::FileFault;
use crate::line_faults::{TOO_LARGE, is_too_large};
use cwr_records::{line_of, whole_piece};
use work_ids::SenderKey;

/// How far a body is read: the counts behind its lines that have ended, and where the next line begins.
#[derive(Clone, Copy, Debug, PartialEq, Eq)]
pub struct Progress {
    pub counts: Counts,
    pub start: usize,
}

impl Progress {
    /// Before the first line of any body.
    pub fn new() -> Progress
        ensures read { (sender body : List ℕ) → IsReadTo sender body result }
        ensures start { result.start ≡ 0 }
    {
        Progress {
            counts: Counts::new(),
            start: 0,
        }
    }
}

/// A fault of the line that is next.
pub fn at_next_line(number: u8, at: &Progress) -> FileFault
    requires { at.now.counts.lines < 2 ^ 63 }
    ensures { result ≡ record { number = number; line = at.now.counts.lines + 1 } }
{
    FileFault {
        number,
        line: at.counts.lines as usize + 1,
    }
}

/// Reads the lines of a body that have ended, from where it is read to; no LF is among the next `searched` bytes. Else
/// the fault of one of these lines, whatever follows.
pub fn read_lines(
    sender: &SenderKey,
    body: &[u8],
    from: &Progress,
    searched: usize,
) -> Result<Progress, FileFault>
    requires read { IsReadTo sender.now body.now from.now }
    requires within { from.now.start + searched ≤ length body.now }
    requires none_there { has_line_end (take searched (drop from.now.start body.now)) ≡ false }
    ensures { MatchResult result (HasReadLines sender.now body.now) (IsSettled sender.now body.now) }
{
    let mut at = *from;
    let mut known = searched;
    'lines: while let Some(count) = whole_piece(&body[at.start..], known) {
        let end = at.start + count;
        let line = line_of(&body[at.start..end]);
        match step(sender, &at.counts, end, &line) {
            Ok(counts) => at = Progress { counts, start: end },
            Err(number) => return Err(at_next_line(number, &at)),
        }
        known = 0;
    }
    Ok(at)
}

/// Reads on as `read_lines` does; a last line that has not ended and is too large already is fault 12, whatever follows.
pub fn read_on(
    sender: &SenderKey,
    body: &[u8],
    from: &Progress,
    searched: usize,
) -> Result<Progress, FileFault>
    requires read { IsReadTo sender.now body.now from.now }
    requires within { from.now.start + searched ≤ length body.now }
    requires none_there { has_line_end (take searched (drop from.now.start body.now)) ≡ false }
    ensures { MatchResult result (IsPending sender.now body.now) (IsSettled sender.now body.now) }
{
    match read_lines(sender, body, from, searched) {
        Ok(at) => {
            if is_too_large(body.len(), &line_of(&body[at.start..])) {
                return Err(at_next_line(TOO_LARGE, &at));
            }
            Ok(at)
        }
        Err(fault) => Err(fault),
    }
}
