//! Reads and writes of pieces at a place.
ghost use Rattle.std.specs.Prelude.{◌≡◌, ◌<◌, ◌≤◌, ◌++◌, ◌∷◌, [], All, drop, length, Option, IfOk, OnOk, OnErr, IsTrue, MatchOption};
ghost use Rattle.sqlite_value.specs.Value.{owned};
ghost use Rattle.sqlite_value.specs.Order.{value_cmp};
ghost use Rattle.sqlite_value.specs.Keys.{entry_cmp};
ghost use Rattle.std.specs.Ordering.{is_eq};
ghost use Rattle.sqlite_trees.specs.Tree.{rowid};
ghost use Rattle.memory_store.specs.Joined.{joined};
ghost use Rattle.memory_store.specs.Pieces.{rows_before, from_place};
ghost use Rattle.memory_store.specs.Search.{IsRowPlace, head_passes};

use crate::rows::RowPlace;
use sqlite_value::keys::Order;
use sqlite_value::order::compare;
use sqlite_value::row::Row;
use sqlite_value::value::ValueRef;
use std::alloc::{AllocError, Global};

/// A piece of more rows is split.
const PIECE_ROWS: usize = 128;

/// The row behind a place, and the place behind that row.
pub(crate) fn after(pieces: &[Vec<Row>], place: RowPlace) -> Option<(RowPlace, &Row)>
    requires { All (λ piece. 0 < length piece.items) pieces.now }
    ensures { MatchOption result
        (from_place pieces.now place.piece place.at ≡ [])
        (λ next. from_place pieces.now place.piece place.at ≡ next.1.now ∷ from_place pieces.now next.0.piece next.0.at) }
{
    let RowPlace { piece, at } = place;
    if piece >= pieces.len() {
        return None;
    }
    let rows = &pieces[piece];
    if at < rows.len() {
        return Some((RowPlace { piece, at: at + 1 }, &rows[at]));
    }
    // The rows of this piece have all been given.
    let piece = piece + 1;
    if piece >= pieces.len() {
        return None;
    }
    Some((RowPlace { piece, at: 1 }, &pieces[piece][0]))
}

/// The row before a place, and the place before that row.
pub(crate) fn before(pieces: &[Vec<Row>], place: RowPlace) -> Option<(RowPlace, &Row)>
    requires { All (λ piece. 0 < length piece.items) pieces.now }
    ensures { MatchOption result
        (rows_before pieces.now place.piece place.at ≡ [])
        (λ next. rows_before pieces.now place.piece place.at ≡ rows_before pieces.now next.0.piece next.0.at ++ next.1.now ∷ []) }
{
    let RowPlace { piece, at } = place;
    if piece < pieces.len() {
        let rows = &pieces[piece];
        let at = at.min(rows.len());
        if at > 0 {
            return Some((RowPlace { piece, at: at - 1 }, &rows[at - 1]));
        }
    }
    let piece = piece.min(pieces.len());
    if piece == 0 {
        return None;
    }
    let rows = &pieces[piece - 1];
    let at = rows.len() - 1;
    Some((
        RowPlace {
            piece: piece - 1,
            at,
        },
        &rows[at],
    ))
}

/// Whether there is a row behind a place in its piece, or the place is behind all pieces.
pub(crate) fn is_row_or_end(pieces: &[Vec<Row>], place: RowPlace) -> bool
    ensures within { IsTrue result → place.piece ≤ length pieces.now }
    ensures inside { IsTrue result → place.piece < length pieces.now → IsRowPlace pieces.now place.piece place.at }
{
    if place.piece < pieces.len() {
        place.at < pieces[place.piece].len()
    } else {
        place.piece == pieces.len()
    }
}

/// The place one row on.
pub(crate) fn one_on(pieces: &[Vec<Row>], place: RowPlace) -> RowPlace {
    if place.piece >= pieces.len() {
        return place;
    }
    let next = place.at.saturating_add(1);
    if next < pieces[place.piece].len() {
        return RowPlace {
            piece: place.piece,
            at: next,
        };
    }
    RowPlace {
        piece: place.piece + 1,
        at: 0,
    }
}

/// Where a row will be that is put in at a place that was found.
pub(crate) fn landing(pieces: &[Vec<Row>], place: RowPlace) -> RowPlace {
    let count = pieces.len();
    if place.piece == count && count > 0 && pieces[count - 1].len() < PIECE_ROWS {
        return RowPlace {
            piece: count - 1,
            at: pieces[count - 1].len(),
        };
    }
    place
}

/// Where the row of a rowid would be if rowids counted from 1 and all pieces were full.
pub(crate) fn place_of_rowid(id: i64) -> RowPlace {
    let before = usize::try_from(id).unwrap_or(0).saturating_sub(1);
    RowPlace {
        piece: before / PIECE_ROWS,
        at: before % PIECE_ROWS,
    }
}

/// Whether the row behind a place that was found has this rowid.
pub(crate) fn has_rowid(pieces: &[Vec<Row>], place: RowPlace, id: ValueRef<'_>) -> bool
    requires { place.piece < length pieces.now → IsRowPlace pieces.now place.piece place.at }
    ensures is { result ≡ head_passes (λ row. is_eq (value_cmp (rowid row) (owned id.entry))) (from_place pieces.now place.piece place.at) }
    ensures inside { IsTrue result → IsRowPlace pieces.now place.piece place.at }
{
    place.piece < pieces.len() && compare(pieces[place.piece][place.at].get(0), id).is_eq()
}

/// Whether the row behind a place that was found is equal to this entry.
pub(crate) fn has_entry(pieces: &[Vec<Row>], place: RowPlace, order: Order, entry: &Row) -> bool
    requires { place.piece < length pieces.now → IsRowPlace pieces.now place.piece place.at }
    ensures is { result ≡ head_passes (λ row. is_eq (entry_cmp order row entry.now)) (from_place pieces.now place.piece place.at) }
    ensures inside { IsTrue result → IsRowPlace pieces.now place.piece place.at }
{
    place.piece < pieces.len()
        && pieces[place.piece][place.at]
            .cmp_entry(order, entry)
            .is_eq()
}

/// Puts a row in place of the one behind a place.
pub(crate) fn replace(pieces: &mut Vec<Vec<Row>>, place: RowPlace, row: Row)
    requires filled { All (λ piece. 0 < length piece.items) pieces.old.items }
    requires inside { IsRowPlace pieces.old.items place.piece place.at }
    ensures rows { joined pieces.new.items ≡ rows_before pieces.old.items place.piece place.at ++ row ∷ drop 1 (from_place pieces.old.items place.piece place.at) }
    ensures filled { All (λ piece. 0 < length piece.items) pieces.new.items }
{
    let rows = &mut pieces[place.piece];
    rows[place.at] = row;
}

/// Takes the row behind a place away, and the piece with its last row.
pub(crate) fn remove(pieces: &mut Vec<Vec<Row>>, place: RowPlace)
    requires filled { All (λ piece. 0 < length piece.items) pieces.old.items }
    requires inside { IsRowPlace pieces.old.items place.piece place.at }
    ensures rows { joined pieces.new.items ≡ rows_before pieces.old.items place.piece place.at ++ drop 1 (from_place pieces.old.items place.piece place.at) }
    ensures filled { All (λ piece. 0 < length piece.items) pieces.new.items }
{
    if pieces[place.piece].len() == 1 {
        pieces.remove(place.piece);
    } else {
        pieces[place.piece].remove(place.at);
    }
}

/// Puts a row in at a place that was found.
pub(crate) fn insert(
    alloc: Global,
    pieces: &mut Vec<Vec<Row>>,
    place: RowPlace,
    row: Row,
) -> Result<(), AllocError>
    requires filled { All (λ piece. 0 < length piece.items) pieces.old.items }
    requires within { place.piece ≤ length pieces.old.items }
    requires inside { place.piece < length pieces.old.items → IsRowPlace pieces.old.items place.piece place.at }
    ensures ok { OnOk result (joined pieces.new.items ≡ rows_before pieces.old.items place.piece place.at ++ row ∷ from_place pieces.old.items place.piece place.at) }
    ensures err { OnErr result (joined pieces.new.items ≡ joined pieces.old.items) }
    ensures filled { All (λ piece. 0 < length piece.items) pieces.new.items }
{
    if place.piece == pieces.len() {
        return push(alloc, pieces, row);
    }
    pieces[place.piece].insert(place.at, row)?;
    if pieces[place.piece].len() > PIECE_ROWS {
        split(alloc, pieces, place.piece);
    }
    Ok(())
}

/// Puts a row in behind all rows, in a piece of its own where the last has no room: rows that come in order fill their pieces.
fn push(alloc: Global, pieces: &mut Vec<Vec<Row>>, row: Row) -> Result<(), AllocError>
    requires { All (λ piece. 0 < length piece.items) pieces.old.items }
    ensures ok { OnOk result (joined pieces.new.items ≡ joined pieces.old.items ++ row ∷ []) }
    ensures err { OnErr result (joined pieces.new.items ≡ joined pieces.old.items) }
    ensures filled { All (λ piece. 0 < length piece.items) pieces.new.items }
{
    let count = pieces.len();
    if count > 0 && pieces[count - 1].len() < PIECE_ROWS {
        pieces[count - 1].push(row)?;
        return Ok(());
    }
    let mut piece = Vec::new(alloc);
    piece.push(row)?;
    pieces.push(piece)?;
    Ok(())
}

/// Moves the upper half of a piece to a piece behind it. Where no memory is left the piece stays long.
fn split(alloc: Global, pieces: &mut Vec<Vec<Row>>, at: usize)
    requires filled { All (λ piece. 0 < length piece.items) pieces.old.items }
    requires within { at < length pieces.old.items }
    ensures rows { joined pieces.new.items ≡ joined pieces.old.items }
    ensures filled { All (λ piece. 0 < length piece.items) pieces.new.items }
{
    // A lone row stays where it is, since no piece is empty.
    let half = pieces[at].len() / 2;
    if half == 0 {
        return;
    }
    // The room comes first, so that no row is in hand when there is none.
    if pieces.insert(at + 1, Vec::new(alloc)).is_err() {
        return;
    }
    match pieces[at].split_off(half) {
        Ok(upper) => pieces[at + 1] = upper,
        Err(_) => drop(pieces.remove(at + 1)),
    }
}

/// A piece that has the same rows.
pub(crate) fn copy(alloc: Global, rows: &[Row]) -> Result<Vec<Row>, AllocError>
    ensures { IfOk result (λ piece. piece.items ≡ rows.now) }
{
    let mut piece = Vec::new(alloc);
    for row in rows {
        piece.push(row.copy(alloc)?)?;
    }
    Ok(piece)
}
