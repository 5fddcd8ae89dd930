//! A database's file and its log, which are read before anything is opened.
ghost use Rattle.std.specs.Prelude.{List, ℕ, IfErr, IfOk, MatchOption};
ghost use Rattle.society_host.specs.Refusals.{IsUnread};

use log_reading::ReadAt;
use society_opening::OpenFault;

/// What reads the file of a database and its log, and writes neither.
pub trait ReadFiles {
    /// A file that is read.
    type File: ReadAt + Drop;

    /// What the file of the database at a path is, and what its log.
    ghost is_file: { List ℕ → Self.File → Type 0 };

    ghost is_log: { List ℕ → Self.File → Type 0 };

    /// Whether there may be none.
    ghost lacks_file: { List ℕ → Type 0 };

    ghost lacks_log: { List ℕ → Type 0 };

    /// What is at a path, or its log, can't be opened to be read.
    ghost fails_to_read: { List ℕ → Type 0 };

    /// The file of the database at a path, if there is one. `Store` where it can't be read, `Memory` where memory was refused.
    fn file_at(&self, path: &str) -> Result<Option<Self::File>, OpenFault>
        ensures found { IfOk result (λ found. MatchOption found (lacks_file path.now) (is_file path.now)) }
        ensures failed { IfErr result (IsUnread (fails_to_read path.now)) };

    /// The log of the database at a path, beside the file to which a link there leads, if there is one. The error is as that of `file_at`.
    fn log_at(&self, path: &str) -> Result<Option<Self::File>, OpenFault>
        ensures found { IfOk result (λ found. MatchOption found (lacks_log path.now) (is_log path.now)) }
        ensures failed { IfErr result (IsUnread (fails_to_read path.now)) };
}
