//! Whether a territory row includes its territory.
use crate::Field;

/// Whether a territory row includes or excludes its territory.
#[derive(Clone, Copy, Debug, PartialEq, Eq)]
pub enum Indicator {
    /// I.
    Included,
    /// E.
    Excluded,
}

impl Indicator {
    ghost use Rattle.std.specs.Prelude.{◌≡◌};
    ghost use Rattle.cwr_records.specs.Typed.{indicator_of};

    /// The indicator of a field: I or E; else none.
    #[tactic(auto, unfolding(crate::specs::Typed::indicator_of))]
    pub fn from_field(field: &Field<'_>) -> Option<Indicator>
        ensures { result ≡ indicator_of field.now }
    {
        if field.is(b"I") {
            return Some(Indicator::Included);
        }
        if field.is(b"E") {
            return Some(Indicator::Excluded);
        }
        None
    }
}
