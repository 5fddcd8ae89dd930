//! Limits of requests.
/// The longest head, in bytes.
pub const MAX_HEAD: usize = 8192;
