//! Heads of requests, read by `httparse`.
ghost use Rattle.httparse.specs.Spans.{IsRequestWithin};
ghost use Rattle.http_desk.specs.Head.{Means, WeighsAs};

use crate::body_length::{body_length_by_fields, closes, is_put};
use http_text::{BodyLength, MAX_HEAD};
use httparse::Status;
use httparse::spans::{EMPTY_HEADER_SPAN, HeaderSpan, RequestSpans, Span, parse_request};

/// The most fields of a head.
const MAX_FIELDS: usize = 64;

/// What is kept of a head while its body comes; it holds no place of the bytes but its target's, from the head's start.
#[derive(Clone, Copy, Debug, PartialEq, Eq)]
pub(crate) struct Head {
    /// Whether the method is PUT.
    pub put: bool,
    /// Where the target lies in the head.
    pub target: Span,
    /// Bytes of the head.
    pub length: usize,
    /// Bytes of the body after it.
    pub body: u32,
    /// Whether the connection ends after the answer.
    pub closes: bool,
}

/// What stands at the front of the bytes.
#[derive(Clone, Copy, Debug, PartialEq, Eq)]
pub(crate) enum Reading {
    /// A head that is taken.
    Whole(Head),
    /// No whole head yet.
    Partial,
    /// No head that is taken, whatever follows.
    Bad,
    /// A head that announces more than the greatest body.
    TooLarge,
}

/// Reads the head at the front of the bytes.
pub(crate) fn read_head(bytes: &[u8]) -> Reading
    ensures { Means result bytes.now }
{
    if bytes.is_empty() {
        return Reading::Partial;
    }
    let mut headers = [EMPTY_HEADER_SPAN; MAX_FIELDS];
    match parse_request(bytes, &mut headers) {
        Ok(Status::Complete(spans)) => {
            if spans.len > MAX_HEAD {
                return Reading::Bad;
            }
            weigh(bytes, &headers, &spans)
        }
        Ok(Status::Partial) => {
            if bytes.len() < MAX_HEAD {
                Reading::Partial
            } else {
                Reading::Bad
            }
        }
        Err(_) => Reading::Bad,
    }
}

// What a head within the limits comes to, by its method and fields.
fn weigh(bytes: &[u8], headers: &[HeaderSpan], spans: &RequestSpans) -> Reading
    requires { IsRequestWithin bytes.now headers.now spans.now }
    ensures { WeighsAs bytes.now headers.now spans.now result }
{
    let fields = &headers[..spans.headers];
    let method = spans.method.of(bytes);
    match body_length_by_fields(bytes, fields, method) {
        BodyLength::Faulty => Reading::Bad,
        BodyLength::Large => Reading::TooLarge,
        BodyLength::Sized(body) => Reading::Whole(Head {
            put: is_put(method),
            target: spans.path,
            length: spans.len,
            body,
            closes: closes(bytes, fields, spans.version),
        }),
    }
}
