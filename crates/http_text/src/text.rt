//! The bytes of answers, put into room that was taken before the first read.
ghost use Rattle.std.specs.Prelude.{◌≡◌, ◌≤◌, ◌+◌, ◌++◌, length, decimal, vec_len, vec_capacity};
ghost use Rattle.http_text.specs.NumberTexts.{number_text};
ghost use Rattle.http_text.specs.Text.{code_of, connection_field, fields_text, head_text, status_text, type_text};

use crate::number_text::dated_text_of;
use crate::status::{ContentType, Status, code, phrase, type_name};
use itoa::Buffer;
use work_ids::FIRST_YEAR;

/// Appends bytes for which there is room.
pub fn put(out: &mut Vec<u8>, bytes: &[u8])
    requires { vec_len out.old + length bytes.now ≤ vec_capacity out.old }
    ensures items { out.new.items ≡ out.old.items ++ bytes.now }
    ensures len { vec_len out.new ≡ vec_len out.old + length bytes.now }
    ensures room { vec_capacity out.old ≤ vec_capacity out.new }
{
    out.extend_from_slice(bytes).unwrap();
}

/// Appends a number in decimal digits, of which there are at most 40.
pub(crate) fn put_number(out: &mut Vec<u8>, number: u64)
    requires { vec_len out.old + 40 ≤ vec_capacity out.old }
    ensures items { out.new.items ≡ out.old.items ++ decimal number }
    ensures len { vec_len out.new ≤ vec_len out.old + 40 }
    ensures room { vec_capacity out.old ≤ vec_capacity out.new }
{
    let mut digits = Buffer::new();
    put(out, digits.format(number).as_bytes());
}

/// Appends the number with a rank, of which there are at most 40 bytes: a plain one in decimal digits, one of a year as a
/// string.
pub(crate) fn put_rank(out: &mut Vec<u8>, rank: u32)
    requires { vec_len out.old + 40 ≤ vec_capacity out.old }
    ensures items { out.new.items ≡ out.old.items ++ number_text rank }
    ensures len { vec_len out.new ≤ vec_len out.old + 40 }
    ensures room { vec_capacity out.old ≤ vec_capacity out.new }
{
    if rank < FIRST_YEAR {
        put_number(out, u64::from(rank));
        return;
    }
    put(out, b"\"");
    put(out, &dated_text_of(rank));
    put(out, b"\"");
}

// Appends the status line without its end.
fn put_status(out: &mut Vec<u8>, status: Status)
    requires { vec_len out.old + 82 ≤ vec_capacity out.old }
    ensures items { out.new.items ≡ out.old.items ++ status_text (code_of status) }
    ensures len { vec_len out.new ≤ vec_len out.old + 82 }
    ensures room { vec_capacity out.old ≤ vec_capacity out.new }
{
    put(out, b"HTTP/1.1 ");
    put_number(out, u64::from(code(status)));
    put(out, b" ");
    put(out, phrase(status).as_bytes());
}

// The field that says that the connection ends, or nothing.
fn connection_line(close: bool) -> &'static str
    ensures value { result.now ≡ connection_field close }
    ensures short { length result.now ≤ 32 }
{
    if close { "\r\nConnection: close" } else { "" }
}

// Appends the fields and the empty line, with the line end before them.
fn put_fields(out: &mut Vec<u8>, content_type: ContentType, size: u64, close: bool)
    requires { vec_len out.old + 180 ≤ vec_capacity out.old }
    ensures items { out.new.items ≡ out.old.items ++ fields_text (type_text content_type) size close }
    ensures len { vec_len out.new ≤ vec_len out.old + 180 }
    ensures room { vec_capacity out.old ≤ vec_capacity out.new }
{
    put(out, b"\r\nContent-Type: ");
    put(out, type_name(content_type).as_bytes());
    put(out, b"\r\nContent-Length: ");
    put_number(out, size);
    put(out, connection_line(close).as_bytes());
    put(out, b"\r\n\r\n");
}

/// Appends the head of an answer, at most 512 bytes.
#[tactic(auto, unfolding(crate::specs::Text::head_text))]
pub fn put_head(
    out: &mut Vec<u8>,
    status: Status,
    content_type: ContentType,
    size: u64,
    close: bool,
)
    requires { vec_len out.old + 512 ≤ vec_capacity out.old }
    ensures items { out.new.items ≡ out.old.items ++ head_text (code_of status) (type_text content_type) size close }
    ensures len { vec_len out.new ≤ vec_len out.old + 512 }
    ensures room { vec_capacity out.old ≤ vec_capacity out.new }
{
    put_status(out, status);
    put_fields(out, content_type, size, close);
}
