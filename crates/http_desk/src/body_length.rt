//! What the fields of a head say of its body and of the connection.
ghost use Rattle.std.specs.Prelude.{◌≡◌, ◌∷◌, [], length, map, All};
ghost use Rattle.std.specs.Str.{str_eq_ignore_ascii_case};
ghost use Rattle.httparse.specs.Spans.{IsHeaderWithin, header_bytes};
ghost use Rattle.http_desk.specs.Fields.{FindsValues};
ghost use Rattle.http_text.specs.BodyLength.{is_field_named, field_values, body_length_by, body_length_of, ends_connection, says_close, is_put};

use cwr_files::MAX_BODY;
use http_text::BodyLength;
use http1::fields::KnownFields;
use httparse::spans::HeaderSpan;
use work_ids::{is_number, number_up_to};

/// The values of the fields of one name: none, one, or more.
#[derive(Clone, Copy, Drop)]
pub(crate) enum Found<'b> {
    Nothing,
    One(&'b [u8]),
    Several,
}

// Whether two texts are the same but for the case of letters.
fn is_same_word(left: &[u8], right: &[u8]) -> bool
    ensures { result ≡ str_eq_ignore_ascii_case left.now right.now }
{
    left.eq_ignore_ascii_case(right)
}

// Whether a field has this name.
fn has_name(bytes: &[u8], header: &HeaderSpan, name: &[u8]) -> bool
    requires { IsHeaderWithin (length bytes.now) header.now }
    ensures { result ≡ is_field_named name.now (header_bytes bytes.now header.now) }
{
    is_same_word(header.name.of(bytes), name)
}

/// The value of the only field of this name.
pub(crate) fn lone_value<'b>(bytes: &'b [u8], headers: &[HeaderSpan], name: &[u8]) -> Found<'b>
    requires { All (IsHeaderWithin (length bytes.now)) headers.now }
    ensures { FindsValues result (field_values name.now (map (header_bytes bytes.now) headers.now)) }
{
    let mut found = None;
    for header in headers {
        if has_name(bytes, header, name) {
            if found.is_some() {
                return Found::Several;
            }
            found = Some(header.value.of(bytes));
        }
    }
    match found {
        Some(value) => Found::One(value),
        None => Found::Nothing,
    }
}

// Whether a Connection field lists `close`.
#[tactic(auto, unfolding(http1::specs::Fields::known_fields))]
fn says_close(bytes: &[u8], headers: &[HeaderSpan]) -> bool
    requires { All (IsHeaderWithin (length bytes.now)) headers.now }
    ensures { result ≡ says_close (map (header_bytes bytes.now) headers.now) }
{
    KnownFields::from_spans(bytes, headers).close
}

/// Whether the connection ends after the answer.
pub(crate) fn closes(bytes: &[u8], headers: &[HeaderSpan], minor: u8) -> bool
    requires { All (IsHeaderWithin (length bytes.now)) headers.now }
    ensures { result ≡ ends_connection minor (map (header_bytes bytes.now) headers.now) }
{
    minor == 0 || says_close(bytes, headers)
}

// How long the body is, by the value of a Content-Length field.
fn body_length_by_value(value: &[u8]) -> BodyLength
    ensures { result ≡ body_length_by (value.now ∷ []) }
{
    if !is_number(value) {
        return BodyLength::Faulty;
    }
    let greatest = MAX_BODY as u32;
    let size = number_up_to(value, greatest);
    if size > greatest {
        BodyLength::Large
    } else {
        BodyLength::Sized(size)
    }
}

/// Whether the method is PUT.
pub(crate) fn is_put(method: &[u8]) -> bool
    ensures { result ≡ is_put method.now }
{
    method == b"PUT".as_slice()
}

/// How long the body is, by method and fields.
pub(crate) fn body_length_by_fields(
    bytes: &[u8],
    headers: &[HeaderSpan],
    method: &[u8],
) -> BodyLength
    requires { All (IsHeaderWithin (length bytes.now)) headers.now }
    ensures { result ≡ body_length_of method.now (map (header_bytes bytes.now) headers.now) }
{
    if method != b"GET".as_slice() && !is_put(method) {
        return BodyLength::Faulty;
    }
    let Found::Nothing = lone_value(bytes, headers, b"transfer-encoding") else {
        return BodyLength::Faulty;
    };
    match lone_value(bytes, headers, b"content-length") {
        Found::Nothing => BodyLength::Sized(0),
        Found::One(value) => body_length_by_value(value),
        Found::Several => BodyLength::Faulty,
    }
}
