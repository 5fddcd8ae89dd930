//! A line of a transmission, and the cutting of a body into lines.
ghost use Rattle.std.specs.Prelude.{◌≡◌, ◌<◌, ◌≤◌, ◌-◌, ◌+◌, ◌∷◌, [], ◌≢◌, ℕ, List, length, take, drop, false, MatchOption};
ghost use Rattle.cwr_records.specs.Layouts.{field_in, width_of};
ghost use Rattle.cwr_records.specs.Places.{record_sequence_in, record_type_in, transaction_sequence_in};
ghost use Rattle.cwr_records.specs.Lines.{field, fill_field, has_line_end, is_blank, line_of_piece, pieces, without_last, IsFirstLine, IsWholePiece};

use crate::layout::{RECORD_SEQUENCE, RECORD_TYPE, TRANSACTION_SEQUENCE};
use crate::{Field, Position};
use memchr::memchr;
use std::marker::Model;
use work_ids::are_blank;

/// A line without its line end, lent from the body that it stands in.
#[derive(Drop)]
pub struct Line<'a> {
    bytes: &'a [u8],
}

impl<'a> Model for Line<'a> {
    ghost use Rattle.std.specs.Prelude.{ℕ, List};

    ghost Value = { List ℕ };

    ghost view = { λ l. l.bytes.now };
}

impl<'a> Line<'a> {
    /// The line of these bytes, which hold no line end.
    pub fn new(bytes: &'a [u8]) -> Line<'a>
        ensures { result ≡ bytes.now }
    {
        Line { bytes }
    }

    /// The same line once more.
    pub fn again(&self) -> Line<'a>
        ensures { result ≡ self.now }
    {
        Line { bytes: self.bytes }
    }

    /// How many bytes the line has.
    pub fn len(&self) -> usize
        ensures { result ≡ length self.now }
    {
        self.bytes.len()
    }

    /// The field from one position to another, both counted from 1, with blanks past the line's end.
    pub fn field(&self, first: usize, last: usize) -> Field<'a>
        requires from_one { 1 ≤ first }
        requires in_order { first ≤ last }
        ensures value { result ≡ field self.now first last }
        ensures width { length result ≡ last + 1 - first }
    {
        let width = last - (first - 1);
        let start = (first - 1).min(self.bytes.len());
        let rest = &self.bytes[start..];
        let present = &rest[..width.min(rest.len())];
        Field::new(present, width)
    }

    /// Whether the line is empty or has blanks alone.
    pub fn is_blank(&self) -> bool
        ensures { result ≡ is_blank self.now }
    {
        are_blank(self.bytes)
    }

    /// The field of the line at a position of a layout.
    pub(crate) fn at(&self, position: Position) -> Field<'a>
        requires from_one { 1 ≤ position.from }
        requires in_order { position.from ≤ position.to }
        ensures value { result ≡ field_in self.now position }
        ensures width { length result ≡ width_of position }
    {
        self.field(position.from, position.to)
    }

    /// The record type.
    pub fn record_type(&self) -> Field<'a>
        ensures value { result ≡ record_type_in self.now }
        ensures width { length result ≡ 3 }
    {
        self.at(RECORD_TYPE)
    }

    /// The transaction sequence number of a record of a transaction.
    pub fn transaction_sequence(&self) -> Field<'a>
        ensures value { result ≡ transaction_sequence_in self.now }
        ensures width { length result ≡ 8 }
    {
        self.at(TRANSACTION_SEQUENCE)
    }

    /// The record sequence number of a record of a transaction.
    pub fn record_sequence(&self) -> Field<'a>
        ensures value { result ≡ record_sequence_in self.now }
        ensures width { length result ≡ 8 }
    {
        self.at(RECORD_SEQUENCE)
    }
}

/// The first line of a body that is not empty, and the rest of the body.
pub fn split_line<'a>(bytes: &'a [u8]) -> (Line<'a>, &'a [u8])
    requires { bytes.now ≢ [] }
    ensures { IsFirstLine bytes.now result.0 result.1.now }
{
    let (piece, rest) = bytes.split_at(piece_len(bytes));
    (line_of(piece), rest)
}

/// The line of a piece of a body: without its LF, then without one CR at its end.
#[tactic(auto, unfolding(crate::specs::Lines::line_of_piece))]
pub fn line_of<'a>(piece: &'a [u8]) -> Line<'a>
    ensures { result ≡ line_of_piece piece.now }
{
    Line::new(without_last(without_last(piece, b'\n'), b'\r'))
}

// How many bytes the first piece has, its LF included.
fn piece_len(bytes: &[u8]) -> usize
    requires { bytes.now ≢ [] }
    ensures some { 0 < result }
    ensures within { result ≤ length bytes.now }
    ensures piece { pieces bytes.now ≡ take result bytes.now ∷ pieces (drop result bytes.now) }
{
    match whole_piece(bytes, 0) {
        Some(count) => count,
        None => bytes.len(),
    }
}

/// How many bytes the first piece has whatever follows, its LF included; none where no LF is among the bytes. The
/// first `searched` bytes are known to hold none.
pub fn whole_piece(bytes: &[u8], searched: usize) -> Option<usize>
    requires within { searched ≤ length bytes.now }
    requires none_there { has_line_end (take searched bytes.now) ≡ false }
    ensures { MatchOption result (has_line_end bytes.now ≡ false) (IsWholePiece bytes.now) }
{
    match memchr(b'\n', &bytes[searched..]) {
        Some(place) => Some(searched + place + 1),
        None => None,
    }
}

// The bytes without their last one, where that is `end`.
fn without_last(bytes: &[u8], end: u8) -> &[u8]
    requires { 0 < end }
    ensures { result.now ≡ without_last end bytes.now }
{
    match bytes {
        [front @ .., last] if *last == end => front,
        _ => bytes,
    }
}
