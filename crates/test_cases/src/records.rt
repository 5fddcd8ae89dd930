//! Records: lines that are read field by field and written in full, and what their fields say.
ghost use Rattle.std.specs.Prelude.{◌≡◌, length};

use crate::body::count;
use crate::told::Told;
use cwr_records::{
    Field, Indicator, Line, PublisherRecord, PublisherTerritory, Record, RecordKind,
    RecordingDetail, Share, TisCode, WorkRecord, WriterRecord, read_record, split_line,
    write_record,
};
use std::alloc::Global;
use test_sheets::first_word;
use work_ids::are_blank;

/// Tells what a word asks of a line of a body; whether there is such a word.
pub fn tell_record(alloc: Global, told: &mut Told, word: &str, rest: &str, body: &[u8]) -> bool {
    let (number, rest) = first_word(rest);
    match word {
        "record" => tell_written(alloc, told, line_at(body, number)),
        "fields" => tell_typed(told, &read_record(Line::new(line_at(body, number)))),
        "field" => tell_field(told, &Line::new(line_at(body, number)), rest),
        "lines" => tell_lines(told, body),
        _ => return false,
    }
    true
}

/// The bytes of a line of a body, from 1.
fn line_at<'a>(body: &'a [u8], number: &str) -> &'a [u8] {
    let before = count(number).saturating_sub(1);
    let line = body.split(|byte| *byte == b'\n').nth(before).unwrap_or(b"");
    line.strip_suffix(b"\r").unwrap_or(line)
}

/// Tells the fields of a record, each with a bar behind it, and gives the record's line in full.
fn tell_fields<'a, K: RecordKind<'a>>(told: &mut Told, record: &K, line: &mut Vec<u8>) {
    for (index, _position) in K::positions().iter().enumerate() {
        told.bytes(record.content(index).trim());
        told.bytes(b"|");
    }
    let _ = write_record(record, line);
}

fn tell_all_fields(told: &mut Told, record: &Record<'_>, line: &mut Vec<u8>) {
    match record {
        Record::TransmissionHeader(r) => tell_fields(told, r, line),
        Record::GroupHeader(r) => tell_fields(told, r, line),
        Record::Work(r) => tell_fields(told, r, line),
        Record::Publisher(r) => tell_fields(told, r, line),
        Record::PublisherTerritory(r) => tell_fields(told, r, line),
        Record::Writer(r) => tell_fields(told, r, line),
        Record::WriterTerritory(r) => tell_fields(told, r, line),
        Record::PublisherForWriter(r) => tell_fields(told, r, line),
        Record::AlternateTitle(r) => tell_fields(told, r, line),
        Record::Recording(r) => tell_fields(told, r, line),
        Record::Acknowledgement(r) => tell_fields(told, r, line),
        Record::GroupTrailer(r) => tell_fields(told, r, line),
        Record::TransmissionTrailer(r) => tell_fields(told, r, line),
        Record::Other(_) => told.word(b"other"),
    }
}

/// Tells the fields of a line, and of the line that is written of them how long it is and whether it is the line that was read,
/// with blanks and CR LF behind it.
fn tell_written(alloc: Global, told: &mut Told, bytes: &[u8]) {
    let mut line = Vec::new(alloc);
    tell_all_fields(told, &read_record(Line::new(bytes)), &mut line);
    let whole = line.as_slice().strip_suffix(b"\r\n").unwrap_or(b"");
    told.value(whole.len());
    match whole.strip_prefix(bytes) {
        Some(behind) if are_blank(behind) => told.word(b"as read"),
        _ => told.bytes(&line),
    }
}

/// Tells how long a line is, and the bytes between two positions of it.
fn tell_field(told: &mut Told, line: &Line<'_>, rest: &str) {
    let (first, last) = first_word(rest);
    let first = count(first);
    let last = count(last);
    told.value(line.len());
    if 1 <= first && first <= last {
        tell_bytes(told, &line.field(first, last));
    }
}

/// Tells the bytes of a field, between bars.
fn tell_bytes(told: &mut Told, field: &Field<'_>) {
    told.word(b"|");
    for index in 0..field.len() {
        told.bytes(&[field.byte(index)]);
    }
    told.bytes(b"|");
}

/// Tells the first line of a body by its length and five bytes, and gives what is behind it.
fn tell_line<'a>(told: &mut Told, body: &'a [u8]) -> &'a [u8] {
    if body.is_empty() {
        told.word(b"none");
        return body;
    }
    let (line, rest) = split_line(body);
    tell_field(told, &line, "1 5");
    rest
}

/// Tells the first two lines of a body, and how many bytes are behind them.
fn tell_lines(told: &mut Told, body: &[u8]) {
    let rest = tell_line(told, body);
    let rest = tell_line(told, rest);
    told.value(rest.len());
}

/// Tells the fields of a record that have types.
fn tell_typed(told: &mut Told, record: &Record<'_>) {
    match record {
        Record::Work(work) => tell_work(told, work),
        Record::Publisher(publisher) => tell_publisher(told, publisher),
        Record::PublisherTerritory(row) => tell_territory(told, row),
        Record::Writer(writer) => tell_writer(told, writer),
        Record::Recording(recording) => tell_recording(told, recording),
        _ => told.word(b"none"),
    }
}

/// Tells a work's number, its ISWC, its copyright date and its version type.
fn tell_work(told: &mut Told, work: &WorkRecord<'_>) {
    match work.work_number() {
        Ok(number) => told.word(number.as_bytes()),
        Err(fault) => told.value(fault),
    }
    match work.iswc() {
        Ok(Some(iswc)) => told.word(iswc.as_bytes()),
        Ok(None) => told.word(b"none"),
        Err(fault) => told.value(fault),
    }
    tell_bytes(told, &work.copyright_date.field());
    tell_bytes(told, &work.version_type.field());
}

/// Tells a publisher's number, its IPI name number, and its performing, mechanical and synchronization shares.
fn tell_publisher(told: &mut Told, publisher: &PublisherRecord<'_>) {
    told.word(publisher.party.field().trim());
    told.word(publisher.ipi_name.field().trim());
    tell_share(told, &publisher.pr_share.field());
    tell_share(told, &publisher.mr_share.field());
    tell_share(told, &publisher.sr_share.field());
}

/// Tells a writer's number, first name, IPI name number, and performing, mechanical and synchronization shares.
fn tell_writer(told: &mut Told, writer: &WriterRecord<'_>) {
    told.word(writer.party.field().trim());
    told.word(writer.first_name.field().trim());
    told.word(writer.ipi_name.field().trim());
    tell_share(told, &writer.pr_share.field());
    tell_share(told, &writer.mr_share.field());
    tell_share(told, &writer.sr_share.field());
}

/// Tells a share in hundredths of a percent.
pub fn tell_share(told: &mut Told, field: &Field<'_>)
    requires { length field.now ≡ 5 }
{
    match Share::from_field(field) {
        Some(share) => told.value(share.hundredths()),
        None => told.word(b"none"),
    }
}

/// Tells a row's indicator, territory and sequence.
fn tell_territory(told: &mut Told, row: &PublisherTerritory<'_>) {
    match Indicator::from_field(&row.indicator.field()) {
        Some(Indicator::Included) => told.word(b"included"),
        Some(Indicator::Excluded) => told.word(b"excluded"),
        None => told.word(b"none"),
    }
    match TisCode::from_field(&row.territory.field()) {
        Some(code) => told.value(code.value()),
        None => told.word(b"none"),
    }
    told.option(row.sequence.field().number());
}

fn tell_recording(told: &mut Told, recording: &RecordingDetail<'_>) {
    match recording.isrc() {
        Ok(Some(isrc)) => told.word(isrc.as_bytes()),
        Ok(None) => told.word(b"none"),
        Err(fault) => told.value(fault),
    }
}

/// Tells the share that a text of five bytes is.
pub fn tell_share_of(told: &mut Told, text: &[u8]) {
    if text.len() == 5 {
        tell_share(told, &Field::new(text, 5));
    } else {
        told.word(b"not five bytes");
    }
}
