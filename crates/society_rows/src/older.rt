//! The older layouts.
ghost use Rattle.std.specs.Prelude.{◌≡◌};
ghost use Rattle.society_rows.specs.Layouts.{number_of, tables_of};

/// A layout before the one that is written. Its tables are the first ones of layout 3.
#[derive(Clone, Copy, Debug, PartialEq, Eq)]
pub enum OlderLayout {
    /// Layout 1: the office and its book.
    First,
    /// Layout 2: what is derived from the book as well.
    Second,
}

impl OlderLayout {
    /// Its number, as the row of an office says it.
    pub fn number(self) -> u32
        ensures { result ≡ number_of self }
    {
        match self {
            OlderLayout::First => 1,
            OlderLayout::Second => 2,
        }
    }

    /// How many tables it has.
    pub(crate) fn table_count(self) -> usize
        ensures { result ≡ tables_of self }
    {
        match self {
            OlderLayout::First => 6,
            OlderLayout::Second => 12,
        }
    }
}
