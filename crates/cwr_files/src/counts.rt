//! One line step with running counts.
ghost use Rattle.std.specs.Prelude.{◌≡◌, ◌+◌, ◌^◌, ◌<◌, []};
ghost use Rattle.cwr_files.specs.declared.counts.Stage.TheVariants.{Between, Within};
ghost use Rattle.cwr_files.specs.Counts.{HasRoom, StageHasRoom, IsStep, IsStepBehind, counts_of, counts_after, counted_fault, after_in, group_after};

use crate::line_faults::{
    TOO_LARGE, between_fault, ended_fault, group_fault, header_fault, is_too_large,
};
use crate::record_types::{has_type, type_of_group};
use cwr_records::Line;
use work_ids::SenderKey;

/// Where the next line stands.
#[derive(Clone, Copy, Debug, PartialEq, Eq)]
pub enum Stage {
    /// At the first line.
    Header,
    /// Between groups.
    Between,
    /// Within an open group.
    Within(OpenGroup),
    /// After the transmission trailer.
    Ended,
}

/// An open group: its transaction type, how many of its transactions have begun, how many lines it has
/// so far, and the record sequence that the next line of its last transaction has.
#[derive(Clone, Copy, Debug, PartialEq, Eq)]
pub struct OpenGroup {
    pub kind: [u8; 3],
    pub transactions: u64,
    pub lines: u64,
    pub further: u64,
}

/// What a reader keeps from line to line: how many lines, groups and transactions it has read, and where it is.
#[derive(Clone, Copy, Debug, PartialEq, Eq)]
pub struct Counts {
    pub lines: u64,
    pub groups: u64,
    pub transactions: u64,
    pub stage: Stage,
}

impl Counts {
    /// The counts before the first line.
    #[tactic(auto, unfolding(crate::specs::Counts::counts_of))]
    pub fn new() -> Counts
        ensures { result ≡ counts_of [] }
    {
        Counts {
            lines: 0,
            groups: 0,
            transactions: 0,
            stage: Stage::Header,
        }
    }
}

/// The counts after a line, at whose end the body has so many bytes; or the line's fault, 1 to 13.
pub fn step(sender: &SenderKey, counts: &Counts, end: usize, line: &Line) -> Result<Counts, u8>
    requires { HasRoom counts.now }
    ensures step { IsStep sender.now counts.now end line.now result }
    ensures behind { IsStepBehind sender.now counts.now end line.now result }
{
    match counted_fault(sender, counts, end, line) {
        Some(fault) => Err(fault),
        None => Ok(counts_after(counts, line)),
    }
}

// The fault of a line by the counts before it.
#[tactic(auto, unfolding(crate::specs::Counts::counted_fault))]
fn counted_fault(sender: &SenderKey, counts: &Counts, end: usize, line: &Line) -> Option<u8>
    requires { HasRoom counts.now }
    ensures { result ≡ counted_fault sender.now counts.now end line.now }
{
    if is_too_large(end, line) {
        return Some(TOO_LARGE);
    }
    match counts.stage {
        Stage::Header => header_fault(sender, line),
        Stage::Between => between_fault(counts, line),
        Stage::Within(group) => group_fault(counts.groups, &group, line),
        Stage::Ended => ended_fault(line),
    }
}

// The counts after a line that has no fault.
#[tactic(auto, unfolding(crate::specs::Counts::counts_after))]
fn counts_after(counts: &Counts, line: &Line) -> Counts
    requires { HasRoom counts.now }
    ensures { result ≡ counts_after counts.now line.now }
{
    match counts.stage {
        Stage::Header => advance(counts, Stage::Between),
        Stage::Between => after_between(counts, line),
        Stage::Within(group) => after_record(counts, &group, line),
        Stage::Ended => advance(counts, Stage::Ended),
    }
}

// The counts one line on, at a stage.
fn advance(counts: &Counts, stage: Stage) -> Counts
    requires { counts.now.lines < 2 ^ 63 }
    ensures { result ≡ record counts.now { lines = counts.now.lines + 1; stage = stage } }
{
    Counts {
        lines: counts.lines + 1,
        groups: counts.groups,
        transactions: counts.transactions,
        stage,
    }
}

// The counts after a group header or the transmission trailer.
#[tactic(auto, unfolding(crate::specs::Counts::group_begun_by))]
fn after_between(counts: &Counts, line: &Line) -> Counts
    requires { HasRoom counts.now }
    ensures { result ≡ after_in Between counts.now line.now }
{
    if !has_type(line, b"GRH") {
        return advance(counts, Stage::Ended);
    }
    let opened = OpenGroup {
        kind: type_of_group(line),
        transactions: 0,
        lines: 1,
        further: 1,
    };
    Counts {
        lines: counts.lines + 1,
        groups: counts.groups + 1,
        transactions: counts.transactions,
        stage: Stage::Within(opened),
    }
}

// The counts after a line within a group.
fn after_record(counts: &Counts, group: &OpenGroup, line: &Line) -> Counts
    requires room { HasRoom counts.now }
    requires group_room { StageHasRoom (Within group.now) }
    ensures { result ≡ after_in (Within group.now) counts.now line.now }
{
    if has_type(line, b"GRT") {
        return advance(counts, Stage::Between);
    }
    let transactions = if has_type(line, &group.kind) {
        counts.transactions + 1
    } else {
        counts.transactions
    };
    Counts {
        lines: counts.lines + 1,
        groups: counts.groups,
        transactions,
        stage: Stage::Within(group_after(group, line)),
    }
}

// The open group after one more of its records.
#[tactic(auto, unfolding(crate::specs::Counts::group_after))]
fn group_after(group: &OpenGroup, line: &Line) -> OpenGroup
    requires { StageHasRoom (Within group.now) }
    ensures { result ≡ group_after group.now line.now }
{
    if has_type(line, &group.kind) {
        OpenGroup {
            kind: group.kind,
            transactions: group.transactions + 1,
            lines: group.lines + 1,
            further: 1,
        }
    } else {
        OpenGroup {
            kind: group.kind,
            transactions: group.transactions,
            lines: group.lines + 1,
            further: group.further + 1,
        }
    }
}
