//! The writer of records of any kind.
ghost use Rattle.std.specs.Prelude.{◌≡◌, ◌++◌, length, map, take, replicate, OnOk, OnErr, IsTrue};
ghost use Rattle.cwr_records.specs.Layouts.{row, ended, is_one_line, width_of, positions_of};
ghost use Rattle.cwr_records.specs.Records.{IsReadBack};

use crate::{Field, RecordKind};
use std::alloc::AllocError;

/// Appends the record's line, each field at its place and blanks in the gaps, up to the layout's last position, and
/// CR LF. Where memory is refused, `out` is as it was.
pub fn write_record<'a, K: RecordKind<'a>>(source: &K, out: &mut Vec<u8>) -> Result<(), AllocError>
    ensures ok { OnOk result (out.new.items ≡ out.old.items ++ ended (row K.kind.places (K.kind.contents source.now))) }
    ensures err { OnErr result (out.new.items ≡ out.old.items) }

    // What is written is one line, and is read as the same record again.
    ensures read_back { OnOk result (IsTrue (is_one_line (K.kind.contents source.now)) → IsReadBack (row K.kind.places (K.kind.contents source.now)) (K.kind.as_record source.now)) }
{
    let start = out.len();
    let written = append_record(source, out);
    if written.is_err() {
        out.truncate(start);
    }
    written
}

// Appends the record's line and CR LF; where memory is refused, perhaps a part of them.
fn append_record<'a, K: RecordKind<'a>>(source: &K, out: &mut Vec<u8>) -> Result<(), AllocError>
    ensures ok { OnOk result (out.new.items ≡ out.old.items ++ ended (row K.kind.places (K.kind.contents source.now))) }
    ensures err { OnErr result (take (length out.old.items) out.new.items ≡ out.old.items) }
    ensures widths { OnOk result (map length (K.kind.contents source.now) ≡ map width_of (positions_of K.kind.places)) }
{
    let mut behind = 0;
    let positions = K::positions();
    for (index, position) in positions.iter().enumerate() {
        append_blanks(out, position.from - 1 - behind)?;
        append_field(out, &source.content(index))?;
        behind = position.to;
    }
    out.extend_from_slice(b"\r\n")
}

// Appends blanks; where memory is refused, perhaps some of them.
fn append_blanks(out: &mut Vec<u8>, count: usize) -> Result<(), AllocError>
    ensures ok { OnOk result (out.new.items ≡ out.old.items ++ replicate count 32) }
    ensures err { OnErr result (take (length out.old.items) out.new.items ≡ out.old.items) }
{
    for _ in 0..count {
        out.push(b' ')?;
    }
    Ok(())
}

// Appends a field, its blanks included; where memory is refused, perhaps a part of it.
fn append_field(out: &mut Vec<u8>, field: &Field<'_>) -> Result<(), AllocError>
    ensures ok { OnOk result (out.new.items ≡ out.old.items ++ field.now) }
    ensures err { OnErr result (take (length out.old.items) out.new.items ≡ out.old.items) }
{
    let present = field.present();
    out.extend_from_slice(present)?;
    append_blanks(out, field.len() - present.len())
}
