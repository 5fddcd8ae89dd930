//! How large lines and bodies may be.

/// Bytes of a line without its end, at most (profile).
pub const MAX_LINE: usize = 2_000;

/// Bytes of a body, at most (profile).
pub const MAX_BODY: usize = 1_048_576;
