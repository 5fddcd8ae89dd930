//! Files that are read.
ghost use Rattle.std.specs.Prelude.{◌≡◌, ◌+◌, ◌<◌, ℕ, Bool, List, length, IsTrue, IfOk, OnErr, OnOk};
ghost use Rattle.sqlite_disk.specs.Disk.{Holds};

use std::io;

/// A file that is read at any place, and never written.
pub trait ReadAt {
    /// What it holds.
    ghost bytes: { Self → List ℕ };

    /// Whether that is known. If so, it is read truly, and only a place behind its end can't be read.
    ghost is_known: { Self → Bool };

    /// How many bytes it has.
    fn len(&self) -> io::Result<usize>
        ensures ok { IfOk result (λ n. IsTrue (is_known self.now) → n ≡ length (bytes self.now)) }
        ensures err { OnErr result (IsTrue (is_known self.now) → ⊥) };

    /// Fills the buffer with what it holds from a place on.
    fn read_at(&self, at: usize, buffer: &mut [u8]) -> io::Result<()>
        ensures ok { OnOk result (IsTrue (is_known self.now) → Holds (bytes self.now) at buffer.new) }
        ensures err { OnErr result (IsTrue (is_known self.now) → length (bytes self.now) < at + length buffer.old) };
}
