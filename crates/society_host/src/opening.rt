//! How a database is opened in files of the machine that the office runs on.
ghost use Rattle.std.specs.Prelude.{◌≡◌, IfErr, IfOk, IfSome, false, is_some, true};
ghost use Rattle.std.specs.IoError.{error_kind};
ghost use Rattle.sqlite.specs.Files.{FailsToOpenFiles, IsBlankAs, IsCleanLeft, IsOpened, LeavesFiles, file_state};
ghost use Rattle.sqlite.specs.Held.{IsNew};
ghost use Rattle.sqlite.specs.Start.{FindsIn};
ghost use Rattle.sqlite.specs.State.{HasCleanDisk};
ghost use Rattle.sqlite_std_file.specs.File.{IsFresh};
ghost use Rattle.sqlite_store.specs.FileStore.{view};
ghost use Rattle.sqlite_wal.specs.Files.{image_at};
ghost use Rattle.society_host.specs.Looks.{LacksBytes, log_path};

use crate::look::Look;
use crate::machine::Machine;
use sqlite::{Connection, Error, FileFrom, FileStore, Leftover, Start};
use std::io;

/// A machine on which databases are opened, each by an `O`, which is used up by it.
pub trait OpensFiles<O>: Machine {
    /// What is at a path, or where a link there leads, before what opens a database is used. The error is the system's.
    fn look(&self, opener: &O, path: &str) -> io::Result<Look>
        ensures seen { IfOk result (λ look. Self.finds path.now look) }
        ensures unseen { IfErr result (λ e. Self.fails_to_look path.now (error_kind e)) };

    /// Opens the database in the file at a path and in its log, each made where it is missing; where there was no database, each page of the
    /// new one has its sum if so wanted. `start` stands for what they hold. The error is SQLite's, with what is left of the files if they
    /// were opened.
    fn open_at<S: Start>(
        &self,
        opener: O,
        path: &str,
        new_has_sums: bool,
        start: S,
    ) -> Result<Connection<FileStore<FileFrom<S>>>, (Error, Option<Leftover<FileFrom<S>>>)>
        ensures opened { IfOk result (λ c. HasCleanDisk (file_state c) → IsOpened c) }
        ensures found { IfOk result (λ c. HasCleanDisk (file_state c) → FindsIn (image_at S.Start) (file_state c)) }
        ensures sums { IfOk result (λ c. HasCleanDisk (file_state c) → IsBlankAs new_has_sums (image_at S.Start) → (view c.store).has_sums ≡ new_has_sums) }
        ensures fresh { IfOk result IsNew }
        ensures at { IfOk result (λ _. Self.is_opened path.now) }
        // Where a look found no byte there, the file and its log were made.
        ensures made { IfOk result (λ _. LacksBytes Self.Machine path.now → Self.is_made path.now × Self.is_made (log_path path.now)) }
        ensures failed { IfErr result (λ e. Self.fails_to_open path.now e.0 (is_some e.1)) }
        ensures cause { IfErr result (λ e. IfSome e.1 (λ left. (files : _) × IsFresh true files.log × IsFresh false files.db
            × (IsCleanLeft left → FailsToOpenFiles files left e.0 × LeavesFiles files left))) };
}
