//! Records of any type.
use crate::{
    AcknowledgementRecord, AlternateTitle, GroupHeader, GroupTrailer, Line, PublisherForWriter,
    PublisherRecord, PublisherTerritory, RecordingDetail, TransmissionHeader, TransmissionTrailer,
    WorkRecord, WriterRecord, WriterTerritory,
};

/// The record types that have a layout, and `Unknown` for any other.
#[derive(Clone, Copy, Debug, PartialEq, Eq)]
pub enum RecordType {
    Hdr,
    Grh,
    Nwr,
    Rev,
    Spu,
    Opu,
    Spt,
    Swr,
    Owr,
    Swt,
    Pwr,
    Alt,
    Rec,
    Ack,
    Grt,
    Trl,
    Unknown,
}

/// A record, by its kind. A line of another type stays as it is.
#[derive(Drop)]
pub enum Record<'a> {
    TransmissionHeader(TransmissionHeader<'a>),
    GroupHeader(GroupHeader<'a>),
    Work(WorkRecord<'a>),
    Publisher(PublisherRecord<'a>),
    PublisherTerritory(PublisherTerritory<'a>),
    Writer(WriterRecord<'a>),
    WriterTerritory(WriterTerritory<'a>),
    PublisherForWriter(PublisherForWriter<'a>),
    AlternateTitle(AlternateTitle<'a>),
    Recording(RecordingDetail<'a>),
    Acknowledgement(AcknowledgementRecord<'a>),
    GroupTrailer(GroupTrailer<'a>),
    TransmissionTrailer(TransmissionTrailer<'a>),
    Other(Line<'a>),
}
