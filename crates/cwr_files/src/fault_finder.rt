//! Which fault a body has, decided in one pass.
ghost use Rattle.std.specs.Prelude.{◌≡◌, ◌^◌, ◌<◌};
ghost use Rattle.cwr_files.specs.FileFault.{file_fault};
ghost use Rattle.cwr_files.specs.Counts.{counted_end};
ghost use Rattle.cwr_files.specs.ReadTo.{HasReadLines};

use crate::counts::{Counts, Stage, step};
use crate::fault::FileFault;
use crate::line_faults::{NO_HEADER, NO_TRAILER};
use crate::progress::{Progress, at_next_line, read_lines};
use cwr_records::line_of;
use work_ids::SenderKey;

/// The file fault of a body for a sender, the first line that has one and there size first, else the least
/// number; `None` where the body is a transmission of the sender. Takes no memory.
pub fn find_fault(body: &[u8], sender: &SenderKey) -> Option<FileFault>
    ensures { result ≡ file_fault sender.now body.now }
{
    match read_lines(sender, body, &Progress::new(), 0) {
        Ok(at) => last_fault(sender, body, &at),
        Err(fault) => Some(fault),
    }
}

/// The file fault of a body whose lines that have ended are read: that of a last line without its end, or of the end.
pub fn last_fault(sender: &SenderKey, body: &[u8], at: &Progress) -> Option<FileFault>
    requires { HasReadLines sender.now body.now at.now }
    ensures { result ≡ file_fault sender.now body.now }
{
    let rest = &body[at.start..];
    if rest.is_empty() {
        return end_fault(&at.counts);
    }
    match step(sender, &at.counts, body.len(), &line_of(rest)) {
        Ok(counts) => end_fault(&counts),
        Err(number) => Some(at_next_line(number, at)),
    }
}

// The fault of a body that ends behind these counts: it has no line, or no trailer.
fn end_fault(counts: &Counts) -> Option<FileFault>
    requires { counts.now.lines < 2 ^ 63 }
    ensures { result ≡ counted_end counts.now }
{
    match counts.stage {
        Stage::Header => Some(FileFault {
            number: NO_HEADER,
            line: 1,
        }),
        Stage::Ended => None,
        _ => Some(FileFault {
            number: NO_TRAILER,
            line: counts.lines as usize + 1,
        }),
    }
}
