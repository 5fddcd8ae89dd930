//! Statuses and content types of answers.
ghost use Rattle.std.specs.Prelude.{◌≡◌, ◌≤◌, length};
ghost use Rattle.http_text.specs.Text.{code_of, phrase_of, type_text};

use http::StatusCode;

/// The status of an answer.
#[derive(Clone, Copy, Debug, PartialEq, Eq)]
pub enum Status {
    Done,
    Created,
    Accepted,
    BadRequest,
    NotFound,
    Conflict,
    TooLarge,
    Unprocessable,
    Unavailable,
}

/// What the body of an answer is.
#[derive(Clone, Copy, Debug, PartialEq, Eq)]
pub enum ContentType {
    Json,
    File,
    Table,
}

/// The three digits.
pub(crate) fn code(status: Status) -> u16
    ensures { result ≡ code_of status }
{
    match status {
        Status::Done => 200,
        Status::Created => 201,
        Status::Accepted => 202,
        Status::BadRequest => 400,
        Status::NotFound => 404,
        Status::Conflict => 409,
        Status::TooLarge => 413,
        Status::Unprocessable => 422,
        Status::Unavailable => 503,
    }
}

/// The phrase.
#[tactic(auto, using(crate::proofs::lemmas::TextLemmas::phrase_short))]
pub(crate) fn phrase(status: Status) -> &'static str
    ensures value { result.now ≡ phrase_of (code_of status) }
    ensures short { length result.now ≤ 32 }
{
    phrase_in_http(status)
}

// The phrase of a status in HTTP. A call of its own for the proof: that it is short follows from which one it is.
fn phrase_in_http(status: Status) -> &'static str
    ensures { result.now ≡ phrase_of (code_of status) }
{
    match StatusCode::from_u16(code(status)) {
        Ok(code) => code.canonical_reason().unwrap_or(""),
        Err(_) => "",
    }
}

/// The name of a content type.
pub(crate) fn type_name(content_type: ContentType) -> &'static str
    ensures value { result.now ≡ type_text content_type }
    ensures short { length result.now ≤ 32 }
{
    match content_type {
        ContentType::Json => "application/json",
        ContentType::File => "application/octet-stream",
        ContentType::Table => "text/csv",
    }
}
