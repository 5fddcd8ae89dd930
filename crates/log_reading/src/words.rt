//! Numbers and sums in the bytes of a log.
ghost use Rattle.std.specs.Prelude.{◌≡◌, ◌+◌, ◌≤◌, ◌↔◌, length, IsTrue};
ghost use Rattle.sqlite_wal.specs.Format.{be32, part, stored_sum};

/// The two sums over all that stands before a place.
pub(crate) type Sums = (u32, u32);

/// Four bytes as a number, the highest first.
pub(crate) fn get_be32(bytes: &[u8], at: usize) -> u32
    requires { at + 4 ≤ length bytes.now }
    ensures { result ≡ be32 bytes.now at }
{
    bytes[at] as u32 * 0x100_0000
        + bytes[at + 1] as u32 * 0x1_0000
        + bytes[at + 2] as u32 * 0x100
        + bytes[at + 3] as u32
}

/// The two sums that stand at a place.
pub(crate) fn get_sums(bytes: &[u8], at: usize) -> Sums
    requires { at + 8 ≤ length bytes.now }
    ensures { result ≡ stored_sum bytes.now at }
{
    (get_be32(bytes, at), get_be32(bytes, at + 4))
}

/// Whether a frame has the salts that stand at a place of other bytes.
pub(crate) fn has_salts(frame: &[u8], bytes: &[u8], at: usize) -> bool
    requires frame { 16 ≤ length frame.now }
    requires place { at + 8 ≤ length bytes.now }
    ensures { IsTrue result ↔ (part frame.now 8 8 ≡ part bytes.now at 8) }
{
    frame[8..16] == bytes[at..at + 8]
}
