//! Segments of a sender's numbers, the plain one and one a year.
ghost use Rattle.std.specs.Prelude.{◌≡◌};
ghost use Rattle.work_ids.specs.Segments.{index_of, most_in};

/// Greatest number of the plain segment (profile).
pub(crate) const GREATEST_PLAIN: u32 = 999_999;

/// Greatest number of a year's segment (profile).
const GREATEST_OF_YEAR: u32 = 9_999;

/// A series of a sender's numbers, each counted from 1 (profile). The plain one comes first, then the years in order.
#[derive(Clone, Copy, Debug, PartialEq, Eq, PartialOrd, Ord)]
pub enum Segment {
    /// Numbers that come with a request.
    Plain,
    /// Numbers of the file names of a year, which is its last two digits.
    Year(u8),
}

impl Segment {
    /// The greatest number within the segment.
    pub fn greatest(self) -> u32
        ensures { result ≡ most_in (index_of self) }
    {
        match self {
            Segment::Plain => GREATEST_PLAIN,
            Segment::Year(_) => GREATEST_OF_YEAR,
        }
    }
}
