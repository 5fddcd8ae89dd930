//! What a look at a path finds.

/// What a look at a path finds.
#[derive(Clone, Copy, Debug, PartialEq, Eq)]
pub struct Look {
    /// Whether it is a file.
    pub is_file: bool,
    /// How many bytes it has.
    pub len: u64,
    /// Whether group or others may write it.
    pub others_write: bool,
}
