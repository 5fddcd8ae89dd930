//! What the program asks of the machine for a database: a file that holds one.
ghost use Rattle.std.specs.Prelude.{Bool, IfErr, IfOk, List, ℕ};
ghost use Rattle.sqlite.specs.Held.{Held, IsNew};
ghost use Rattle.sqlite_disk.specs.declared.Disk.{Ghosts};
ghost use Rattle.sqlite_store.specs.declared.store.FileStore.{FileStore as Kept};
ghost use Rattle.society_commands.specs.declared.left.Left.{Left as Rest};
ghost use Rattle.society_opening.specs.declared.open_fault.OpenFault.{OpenFault as Fault};

use crate::left::Left;
use society_opening::OpenFault;
use sqlite::{Connection, FileStore};
use sqlite_disk::Disk;

/// What opens the database at a path, once: an opener is used up by it, so that what is served is what was there.
pub trait OpenDatabase {
    /// A file that holds a database, or its log.
    type File: Disk + Drop;

    /// What a look at a path may tell: whether a database is there.
    ghost may_find: { List ℕ → Bool → Type 0 };

    /// Whether group or others may write the file that was opened at a path.
    ghost may_be_shared: { List ℕ → Bool → Type 0 };

    /// What a connection may be that was opened at a path.
    ghost may_open: { (g : Ghosts Self.File) → List ℕ → Held (Kept Self.File g) → Type 0 };

    /// Why a look at a path may fail.
    ghost may_fail: { List ℕ → Fault → Type 0 };

    /// Why what is at a path may be refused, and what may be left then.
    ghost may_refuse: { (g : Ghosts Self.File) → List ℕ → Fault → Rest Self.File Self g → Type 0 };

    /// Whether there is a database at a path: a file with a byte in it. `Memory` where memory was refused, `Store` where the path cannot be
    /// looked at, or what is there is no file, `Damaged` where a log with pages stands there alone, or beside a file of no byte.
    fn has_database(&self, path: &str) -> Result<bool, OpenFault>
        ensures found { IfOk result (λ found. may_find path.now found) }
        ensures failed { IfErr result (may_fail path.now) };

    /// A connection to the database at a path, new and with no limit, and whether group or others may write its file; where there is none it
    /// is made. `Memory` where memory was refused, `Log`
    /// where its log is not as a stop leaves it, `Empty` where it has no table and no page sums, `Damaged` where it is not as it was written,
    /// else `Store`; with what is left of the files, or the opener where it could open none.
    fn open_database(
        self,
        path: &str,
    ) -> Result<(Connection<FileStore<Self::File>>, bool), (OpenFault, Left<Self::File, Self>)>
    where
        Self: Sized,
        ensures opened { IfOk result (λ opened. may_open Self.File.Disk path.now opened.0) }
        ensures new { IfOk result (λ opened. IsNew opened.0) }
        ensures shared { IfOk result (λ opened. may_be_shared path.now opened.1) }
        ensures refused { IfErr result (λ e. may_refuse Self.File.Disk path.now e.0 e.1) };
}
