//! Assertions: each stands here once, and names its row and both values where it fails.
use std::process::Abort;
use std::str;

/// These bytes are what a row wants.
pub fn is_text(rt: &impl Abort, row: &str, seen: &[u8], wanted: &[u8]) {
    assert_eq!(rt; str::from_utf8(seen), str::from_utf8(wanted), "{row}");
}

/// This status is what a row wants.
pub fn is_status(rt: &impl Abort, row: &str, seen: u8, wanted: u8) {
    assert_eq!(rt; seen, wanted, "{row}");
}

/// What a row says holds.
pub fn holds(rt: &impl Abort, row: &str, is_so: bool) {
    assert!(rt; is_so, "{row}");
}
