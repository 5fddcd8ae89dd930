//! The lines of an acknowledgement.
ghost use Rattle.std.specs.Prelude.{◌≡◌, ◌++◌, OnOk};
ghost use Rattle.ack_files.specs.Lines.{header_line, group_header_line, acknowledgement_line, group_trailer_line, trailer_line};

use cwr_records::{
    AcknowledgementRecord, GroupHeader, GroupTrailer, TransmissionHeader, TransmissionTrailer,
    write_record,
};
use std::alloc::AllocError;

/// Appends the line of an HDR record.
#[tactic(auto, unfolding(crate::specs::Lines::header_line))]
pub fn append_header(header: &TransmissionHeader<'_>, out: &mut Vec<u8>) -> Result<(), AllocError>
    ensures { OnOk result (out.new.items ≡ out.old.items ++ header_line header.now) }
{
    write_record(header, out)
}

/// Appends the line of a GRH record.
#[tactic(auto, unfolding(crate::specs::Lines::group_header_line))]
pub fn append_group_header(header: &GroupHeader<'_>, out: &mut Vec<u8>) -> Result<(), AllocError>
    ensures { OnOk result (out.new.items ≡ out.old.items ++ group_header_line header.now) }
{
    write_record(header, out)
}

/// Appends the line of an ACK record.
#[tactic(auto, unfolding(crate::specs::Lines::acknowledgement_line))]
pub fn append_acknowledgement(
    source: &AcknowledgementRecord<'_>,
    out: &mut Vec<u8>,
) -> Result<(), AllocError>
    ensures { OnOk result (out.new.items ≡ out.old.items ++ acknowledgement_line source.now) }
{
    write_record(source, out)
}

/// Appends the line of a GRT record.
#[tactic(auto, unfolding(crate::specs::Lines::group_trailer_line))]
pub fn append_group_trailer(trailer: &GroupTrailer<'_>, out: &mut Vec<u8>) -> Result<(), AllocError>
    ensures { OnOk result (out.new.items ≡ out.old.items ++ group_trailer_line trailer.now) }
{
    write_record(trailer, out)
}

/// Appends the line of a TRL record.
#[tactic(auto, unfolding(crate::specs::Lines::trailer_line))]
pub fn append_trailer(
    trailer: &TransmissionTrailer<'_>,
    out: &mut Vec<u8>,
) -> Result<(), AllocError>
    ensures { OnOk result (out.new.items ≡ out.old.items ++ trailer_line trailer.now) }
{
    write_record(trailer, out)
}
