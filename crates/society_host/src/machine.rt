//! All that the office asks of the machine that it runs on. Nothing else of this crate reaches it.
ghost use Rattle.std.specs.Prelude.{Bool, IfOk, List, OnErr, ℕ};
ghost use Rattle.std.specs.declared.io.ErrorKind.{ErrorKind as Kind};
ghost use Rattle.sqlite.specs.declared.error.Error.{Error as SqliteError};
ghost use Rattle.society_host.specs.HasBytes.{HasBytes};
ghost use Rattle.society_host.specs.declared.look.Look.{Look as Found};

use crate::look::Look;
use std::alloc::Global;
use std::io;

/// A machine. What the office does to it is done by these calls, by those by which it reads files, opens a database and listens, and by its clock's
/// alone: but `open_at`, which makes the file of a database and its log where there are none, and `make_private`, none of them changes a file.
pub trait Machine {
    /// What a look at a path finds before a database is opened there.
    ghost finds: { List ℕ → Found → Type 0 };

    /// Of which kind the error of such a look is.
    ghost fails_to_look: { List ℕ → Kind → Type 0 };

    /// What a look at a path finds once a database was opened there, and what was made so was left to its owner.
    ghost finds_opened: { List ℕ → Found → Type 0 };

    /// Such a look may fail.
    ghost fails_opened: { List ℕ → Type 0 };

    /// A database was opened at this path.
    ghost is_opened: { List ℕ → Type 0 };

    /// With which error of SQLite's opening one at this path fails, and whether files are left then.
    ghost fails_to_open: { List ℕ → SqliteError → Bool → Type 0 };

    /// What is at this path was made by opening a database, so it may be left to its owner.
    ghost is_made: { List ℕ → Type 0 };

    /// What is at this path was left to its owner, where the system let that be.
    ghost is_private: { List ℕ → Type 0 };

    /// The memory that it gives.
    fn alloc(&self) -> Global;

    /// What is at a path, or where a link there leads, once the database that was there is opened. The error is the system's.
    fn look_again(&self, path: &str) -> io::Result<Look>
        requires { HasBytes finds path.now }
        ensures found { IfOk result (finds_opened path.now) }
        ensures failed { OnErr result (fails_opened path.now) };

    /// Leaves what is at a path to its owner, who alone may read and write it from then on, and looks at it; where the system refuses that, nothing
    /// changes. The error is the system's, of that look.
    fn make_private(&self, path: &str) -> io::Result<Look>
        requires { is_made path.now }
        ensures private { is_private path.now }
        ensures found { IfOk result (finds_opened path.now) }
        ensures failed { OnErr result (fails_opened path.now) };
}
