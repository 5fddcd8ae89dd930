//! The files of a machine that hold a database.
ghost use Rattle.std.specs.Prelude.{◌≡◌, ◌⊎◌, IfErr, IfOk, IfSome, None, false, string_bytes, true};
ghost use Rattle.sqlite_std_file.specs.File.{IsFresh};
ghost use Rattle.sqlite_wal.specs.Files.{image_at};
ghost use Rattle.society_host.specs.Examined.{IsToldNone, IsToldOf};
ghost use Rattle.society_host.specs.Found.{IsOpenedSo, WhyForbidden, WhyUnopened};
ghost use Rattle.society_host.specs.HasBytes.{HasBytes};
ghost use Rattle.society_host.specs.Looks.{ArePrivate, AreSeen, FailsBeside, FailsToFind, FindsAt, LacksPages, log_path};
ghost use Rattle.society_host.specs.Refusals.{FaultsAs, RefusesFiles, fault_by_start, is_absent, presence_by_log};

use crate::examining::examine;
use crate::machine::Machine;
use crate::opening::OpensFiles;
use crate::reading::ReadFiles;
use log_reading::ReadAt;
use society_commands::{Left, OpenDatabase};
use society_opening::OpenFault;
use sqlite::{Connection, Error, ErrorCode, FileFrom, FileStore, Leftover, Start};
use std::alloc::Global;
use std::io::ErrorKind;

/// What every database file begins with (SQLite's file format, 1.3.1).
pub(crate) const HEADER: &[u8] = b"SQLite format 3\0";

/// Bytes of a log that holds no page: it is cut to so many when it was copied.
const EMPTY_LOG: u64 = 41;

/// That each page of a new file has its sum (SQLite's cksumvfs): a bit that changed in the file is found when it is opened.
const NEW_HAS_SUMS: bool = true;

/// The files of a machine, where `S` stands for what the file that is opened holds, and `O` opens it. It opens one.
#[derive(Drop)]
pub struct HostFiles<S: Start, M, O> {
    machine: M,
    opener: O,
    found: S,
}

impl<S: Start, M: OpensFiles<O> + ReadFiles + Copy, O> HostFiles<S, M, O> {
    /// The files of this machine.
    pub fn new(machine: M, opener: O, found: S) -> HostFiles<S, M, O> {
        HostFiles {
            machine,
            opener,
            found,
        }
    }
}

impl<S: Start, M: OpensFiles<O> + ReadFiles + Copy, O> OpenDatabase for HostFiles<S, M, O> {
    type File = FileFrom<S>;

    ghost may_find = { λ path found. FindsAt M.Machine path found };

    ghost may_be_shared = { λ path others. AreSeen M.Machine path others };

    // No clause of the system's ties a path to bytes: `S` stands for those of the file that is opened.
    ghost may_open = { λ g path c. IsOpenedSo M.Machine M.ReadFiles M.File.ReadAt (image_at S.Start) path c };

    ghost may_fail = { λ path fault. FailsToFind M.Machine path fault };

    ghost may_refuse = { λ g path fault rest. RefusesFiles (WhyForbidden M.Machine M.ReadFiles M.File.ReadAt path)
        (WhyUnopened M.Machine M.ReadFiles M.File.ReadAt path) (λ files. IsFresh true files.log × IsFresh false files.db) fault rest };

    fn has_database(&self, path: &str) -> Result<bool, OpenFault> {
        look(&self.machine, &self.opener, path)
    }

    fn open_database(
        self,
        path: &str,
    ) -> Result<(Connection<FileStore<Self::File>>, bool), (OpenFault, Left<Self::File, Self>)> {
        let log = match log_path(self.machine.alloc(), path) {
            Ok(log) => log,
            Err(fault) => return Err((fault, Left::Unopened(self))),
        };
        let was_there = match look(&self.machine, &self.opener, path) {
            Ok(was_there) => was_there,
            Err(fault) => return Err((fault, Left::Unopened(self))),
        };
        match examine(self.machine.alloc(), &self.machine, path) {
            Ok(()) => {}
            Err(fault) => return Err((fault, Left::Unopened(self))),
        }
        let HostFiles {
            machine,
            opener,
            found,
        } = self;
        match machine.open_at(opener, path, NEW_HAS_SUMS, found) {
            Ok(connection) => {
                let others_write = guard(&machine, path, log.as_str(), was_there);
                Ok((connection, others_write))
            }
            Err((error, left)) => Err((fault_at(&machine, path, &error), Left::Refused(left))),
        }
    }
}

/// The path of the log of a database. `Memory` where memory was refused.
fn log_path(alloc: Global, path: &str) -> Result<String, OpenFault>
    ensures path { IfOk result (λ log. string_bytes log ≡ log_path path.now) }
    ensures err { IfErr result (λ e. e ≡ OpenFault.Memory) }
{
    match format!(in alloc; "{path}-wal") {
        Ok(log) => Ok(log),
        Err(_) => Err(OpenFault::Memory),
    }
}

/// Whether there is a database at a path, as `has_database` says.
fn look<O, M: OpensFiles<O>>(machine: &M, opener: &O, path: &str) -> Result<bool, OpenFault>
    ensures found { IfOk result (FindsAt M.Machine path.now) }
    ensures failed { IfErr result (FailsToFind M.Machine path.now) }
{
    match machine.look(opener, path) {
        Ok(found) if !found.is_file => Err(OpenFault::Store),
        Ok(found) if found.len > 0 => Ok(true),
        Ok(_) => without_log(machine, opener, path),
        Err(error) if is_absent(error.kind()) => without_log(machine, opener, path),
        Err(_) => Err(OpenFault::Store),
    }
}

/// That there is no database, where no log with a page stands beside: such a log is what is left of one.
fn without_log<O, M: OpensFiles<O>>(machine: &M, opener: &O, path: &str) -> Result<bool, OpenFault>
    ensures found { IfOk result (λ there. (there ≡ false) × LacksPages M.Machine path.now) }
    ensures failed { IfErr result (FailsBeside M.Machine path.now) }
{
    let log = log_path(machine.alloc(), path)?;
    match machine.look(opener, log.as_str()) {
        Ok(found) => presence_by_log(found.len),
        Err(error) if is_absent(error.kind()) => Ok(false),
        Err(_) => Err(OpenFault::Store),
    }
}

/// What the bytes of a log say of a database whose file is not there, or has none: with a page the log is what is left of one, so it is
/// damaged; else there is none.
fn presence_by_log(bytes: u64) -> Result<bool, OpenFault>
    ensures { result ≡ presence_by_log bytes }
{
    if bytes > EMPTY_LOG {
        Err(OpenFault::Damaged)
    } else {
        Ok(false)
    }
}

/// Leaves a new file, and its log, to its owner alone. Whether others may write the file then.
fn guard<M: Machine>(machine: &M, path: &str, log: &str, was_there: bool) -> bool
    requires made { was_there ≡ false → M.is_made path.now × M.is_made log.now }
    requires found { was_there ≡ true → HasBytes M.finds path.now }
    ensures private { was_there ≡ false → M.is_private path.now × M.is_private log.now }
    ensures seen { AreSeen M.Machine path.now result }
{
    let seen = if was_there {
        machine.look_again(path)
    } else {
        let _ = machine.make_private(log);
        machine.make_private(path)
    };
    match seen {
        Ok(found) => found.others_write,
        Err(_) => false,
    }
}

/// Whether nothing is at a path, by the kind of the error of a look there.
fn is_absent(kind: ErrorKind) -> bool
    ensures { result ≡ is_absent kind }
{
    match kind {
        ErrorKind::NotFound => true,
        _ => false,
    }
}

/// What an error of opening the database at a path says. Where SQLite finds no database in the files, the file's first bytes tell whether
/// it was one.
fn fault_at<M: ReadFiles>(machine: &M, path: &str, error: &Error) -> OpenFault
    ensures { FaultsAs (IsToldNone M.ReadFiles M.File.ReadAt path.now) error.now result }
{
    match error {
        Error::SqliteFailure(ErrorCode::OutOfMemory) => OpenFault::Memory,
        Error::SqliteFailure(ErrorCode::NotADatabase) => no_database(machine, path),
        Error::SqliteFailure(ErrorCode::DatabaseCorrupt) => OpenFault::Damaged,
        _ => OpenFault::Store,
    }
}

/// What is said of a file in which SQLite finds no database: it is damaged where it begins as one, or has no byte and so all that was
/// written to it in its log; else it is none. `Memory` where memory was refused.
fn no_database<M: ReadFiles>(machine: &M, path: &str) -> OpenFault
    ensures { IsToldNone M.ReadFiles M.File.ReadAt path.now result }
{
    let file = match machine.file_at(path) {
        Ok(Some(file)) => file,
        Ok(None) => return OpenFault::Store,
        Err(fault) => return fault,
    };
    fault_of_file(&file)
}

/// What is said of such a file, which may not be read.
fn fault_of_file<D: ReadAt>(file: &D) -> OpenFault
    ensures { IsToldOf D.ReadAt file.now result }
{
    let Ok(len) = file.len() else {
        return OpenFault::Store;
    };
    let mut first = [0; HEADER.len()];
    let start = &mut first[..len.min(HEADER.len())];
    match file.read_at(0, start) {
        Ok(()) => fault_by_start(start),
        Err(_) => OpenFault::Store,
    }
}

/// What is said of such a file by its first bytes, sixteen or all that it has.
fn fault_by_start(first: &[u8]) -> OpenFault
    ensures { result ≡ fault_by_start first.now }
{
    if first.is_empty() {
        return OpenFault::Damaged;
    }
    if first == HEADER {
        OpenFault::Damaged
    } else {
        OpenFault::Store
    }
}
