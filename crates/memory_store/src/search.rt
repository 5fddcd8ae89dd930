//! A search for a place between the rows of pieces.
ghost use Rattle.std.specs.Prelude.{◌≡◌, ◌<◌, ◌≤◌, [], All, IsTrue, length, slice_index_or};
ghost use Rattle.sqlite_trees.specs.Probe.{IsCutBy, IsPlaceOf};
ghost use Rattle.memory_store.specs.Joined.{joined};
ghost use Rattle.memory_store.specs.Search as spec;
ghost use Rattle.memory_store.specs.Pieces.{rows_before, from_place};

use crate::pieces;
use crate::rows::RowPlace;
use sqlite_value::keys::Order;
use sqlite_value::order::compare;
use sqlite_value::row::Row;
use sqlite_value::value::ValueRef;

/// A test that the rows of a tree pass up to some place, and fail from there on.
#[derive(Clone, Copy)]
pub(crate) enum Probe<'a> {
    BelowKey(Order, &'a Row),
    UpToKey(Order, &'a Row),
    BelowRowid(ValueRef<'a>),
    BelowEntry(Order, &'a Row),
}

impl Probe<'_> {
    ghost use Rattle.memory_store.specs.Search.{passes_probe, IsCutOnce, AllPass, AllFail, IsRowPlace, lasts};

    fn passes(self, row: &Row) -> bool
        ensures { result ≡ passes_probe self.entry row.now }
    {
        match self {
            Probe::BelowKey(order, key) => row.cmp_prefix(order, key).is_lt(),
            Probe::UpToKey(order, key) => !row.cmp_prefix(order, key).is_gt(),
            Probe::BelowRowid(id) => compare(row.get(0), id).is_lt(),
            Probe::BelowEntry(order, other) => row.cmp_entry(order, other).is_lt(),
        }
    }

    /// How many rows of a piece pass.
    fn count(self, rows: &[Row]) -> usize
        requires { IsCutBy (passes_probe self) rows.now }
        ensures { IsPlaceOf (passes_probe self.entry) rows.now result }
    {
        let mut low = 0;
        let mut high = rows.len();
        while low < high {
            let middle = low + (high - low) / 2;
            if self.passes(&rows[middle]) {
                low = middle + 1;
            } else {
                high = middle;
            }
        }
        low
    }

    /// How many pieces have a last row that passes, so that all their rows do.
    fn whole(self, pieces: &[Vec<Row>]) -> usize
        requires cut { IsCutBy (passes_probe self) (lasts pieces.now) }
        requires filled { All (λ piece. 0 < length piece.items) pieces.now }
        ensures { IsPlaceOf (passes_probe self.entry) (lasts pieces.now) result }
    {
        let mut low = 0;
        let mut high = pieces.len();
        while low < high {
            let middle = low + (high - low) / 2;
            if self.passes(last_row(pieces, middle)) {
                low = middle + 1;
            } else {
                high = middle;
            }
        }
        low
    }

    /// The place before the first row that fails.
    pub(crate) fn find(self, pieces: &[Vec<Row>]) -> RowPlace
        requires cut { IsCutOnce (passes_probe self) (joined pieces.now) }
        requires filled { All (λ piece. 0 < length piece.items) pieces.now }
        ensures before { AllPass (passes_probe self.entry) (rows_before pieces.now result.piece result.at) }
        ensures after { AllFail (passes_probe self.entry) (from_place pieces.now result.piece result.at) }
        ensures within { result.piece ≤ length pieces.now }
        ensures inside { result.piece < length pieces.now → IsRowPlace pieces.now result.piece result.at }
    {
        let piece = self.whole(pieces);
        if piece == pieces.len() {
            return RowPlace { piece, at: 0 };
        }
        let at = self.count(pieces[piece].as_slice());
        RowPlace { piece, at }
    }

    /// Whether the row before a place passes, if there is one: then all rows before it do.
    fn passes_before(self, pieces: &[Vec<Row>], place: RowPlace) -> bool
        requires cut { IsCutOnce (passes_probe self) (joined pieces.now) }
        requires filled { All (λ piece. 0 < length piece.items) pieces.now }
        ensures { IsTrue result → AllPass (passes_probe self.entry) (rows_before pieces.now place.piece place.at) }
    {
        match pieces::before(pieces, place) {
            Some((_, row)) => self.passes(row),
            None => true,
        }
    }

    /// Whether the row behind a place fails, if there is one: then all rows behind it do.
    fn fails_behind(self, pieces: &[Vec<Row>], place: RowPlace) -> bool
        requires cut { IsCutOnce (passes_probe self) (joined pieces.now) }
        requires filled { All (λ piece. 0 < length piece.items) pieces.now }
        ensures { IsTrue result → AllFail (passes_probe self.entry) (from_place pieces.now place.piece place.at) }
    {
        match pieces::after(pieces, place) {
            Some((_, row)) => !self.passes(row),
            None => true,
        }
    }

    /// Whether a place is the one that a search would find.
    fn is_at(self, pieces: &[Vec<Row>], place: RowPlace) -> bool
        requires cut { IsCutOnce (passes_probe self) (joined pieces.now) }
        requires filled { All (λ piece. 0 < length piece.items) pieces.now }
        ensures before { IsTrue result → AllPass (passes_probe self.entry) (rows_before pieces.now place.piece place.at) }
        ensures after { IsTrue result → AllFail (passes_probe self.entry) (from_place pieces.now place.piece place.at) }
        ensures within { IsTrue result → place.piece ≤ length pieces.now }
        ensures inside { IsTrue result → place.piece < length pieces.now → IsRowPlace pieces.now place.piece place.at }
    {
        pieces::is_row_or_end(pieces, place)
            && self.passes_before(pieces, place)
            && self.fails_behind(pieces, place)
    }

    /// The place before the first row that fails: this one, the end, or where it is searched for.
    fn find_else(self, pieces: &[Vec<Row>], place: RowPlace) -> RowPlace
        requires cut { IsCutOnce (passes_probe self) (joined pieces.now) }
        requires filled { All (λ piece. 0 < length piece.items) pieces.now }
        ensures before { AllPass (passes_probe self.entry) (rows_before pieces.now result.piece result.at) }
        ensures after { AllFail (passes_probe self.entry) (from_place pieces.now result.piece result.at) }
        ensures within { result.piece ≤ length pieces.now }
        ensures inside { result.piece < length pieces.now → IsRowPlace pieces.now result.piece result.at }
    {
        if self.is_at(pieces, place) {
            return place;
        }
        let end = RowPlace {
            piece: pieces.len(),
            at: 0,
        };
        if self.is_at(pieces, end) {
            return end;
        }
        self.find(pieces)
    }

    /// The place before the first row that fails. A guess there or one row before it saves the search, and so does the end.
    pub(crate) fn find_near(self, pieces: &[Vec<Row>], guess: RowPlace) -> RowPlace
        requires cut { IsCutOnce (passes_probe self) (joined pieces.now) }
        requires filled { All (λ piece. 0 < length piece.items) pieces.now }
        ensures before { AllPass (passes_probe self.entry) (rows_before pieces.now result.piece result.at) }
        ensures after { AllFail (passes_probe self.entry) (from_place pieces.now result.piece result.at) }
        ensures within { result.piece ≤ length pieces.now }
        ensures inside { result.piece < length pieces.now → IsRowPlace pieces.now result.piece result.at }
    {
        if pieces::is_row_or_end(pieces, guess) {
            if !self.passes_before(pieces, guess) {
                return self.find(pieces);
            }
            if self.fails_behind(pieces, guess) {
                return guess;
            }
        }
        self.find_else(pieces, pieces::one_on(pieces, guess))
    }
}

fn last_row(pieces: &[Vec<Row>], at: usize) -> &Row
    requires within { at < length pieces.now }
    requires filled { All (λ piece. 0 < length piece.items) pieces.now }
    ensures { result.now ≡ slice_index_or (spec.lasts pieces.now) at [] }
{
    let rows = &pieces[at];
    &rows[rows.len() - 1]
}
