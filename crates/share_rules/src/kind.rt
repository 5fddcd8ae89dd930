//! The rights that pools pay.

/// The right that a pool pays: of performance (PR) or of mechanical reproduction (MR) (CISAC CWR 2.2).
#[derive(Clone, Copy, Debug, PartialEq, Eq)]
pub enum Kind {
    Performing,
    Mechanical,
}
