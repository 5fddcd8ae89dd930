//! The machine that the program runs on. What the program does to it, it does by these calls, by those of its network, and by its standard
//! streams.
ghost use Rattle.std.specs.Prelude.{[], IfErr, false};
ghost use Rattle.society_host.specs.Refusals.{IsUnread};

use log_reading::ReadAt;
use society_host::{Look, Machine, OpensFiles, ReadFiles};
use society_opening::OpenFault;
use sqlite::{Connection, Error, FileFrom, FileStore, Leftover, Start};
use std::alloc::Global;
use std::fs::{self, File, Permissions};
use std::io::{self, ErrorKind};
use std::os::unix::fs::{FileExt, PermissionsExt};
use std::time::{Clock, Duration};

/// Who may read and write what is made private: its owner alone.
const OWN: u32 = 0o600;

/// That group or others may write a file.
const OTHERS_WRITE: u32 = 0o022;

/// The machine of a runtime.
#[derive(Clone, Copy)]
pub struct ThisMachine<'a> {
    runtime: &'a HostRuntime,
}

impl<'a> ThisMachine<'a> {
    /// The machine of this runtime.
    pub fn new(runtime: &'a HostRuntime) -> ThisMachine<'a> {
        ThisMachine { runtime }
    }
}

impl<'a> Clock for ThisMachine<'a> {
    fn monotonic(&self) -> io::Result<Duration> {
        self.runtime.monotonic()
    }

    fn since_1970(&self) -> io::Result<Duration> {
        self.runtime.since_1970()
    }

    fn sleep(&self, duration: Duration) {
        self.runtime.sleep(duration)
    }
}

impl<'a> Machine for ThisMachine<'a> {
    // No clause of the system's ties a path to what a look there tells, or to what is done there.
    ghost finds = { λ path look. Unit {0} };

    ghost fails_to_look = { λ path kind. Unit {0} };

    ghost finds_opened = { λ path look. Unit {0} };

    ghost fails_opened = { λ path. Unit {0} };

    ghost is_opened = { λ path. Unit {0} };

    ghost fails_to_open = { λ path error leaves. Unit {0} };

    ghost is_made = { λ path. Unit {0} };

    ghost is_private = { λ path. Unit {0} };

    fn alloc(&self) -> Global {
        self.runtime.alloc()
    }

    fn look_again(&self, path: &str) -> io::Result<Look> {
        look_at(self.runtime, path)
    }

    fn make_private(&self, path: &str) -> io::Result<Look> {
        let _ = fs::set_permissions(self.runtime, path, Permissions::from_mode(OWN));
        look_at(self.runtime, path)
    }
}

/// What is at a path, or where a link there leads.
fn look_at(runtime: &HostRuntime, path: &str) -> io::Result<Look> {
    let found = fs::metadata(runtime, path)?;
    Ok(Look {
        is_file: found.is_file(),
        len: found.len(),
        others_write: found.permissions().mode() & OTHERS_WRITE != 0,
    })
}

/// What opens one database on this machine.
#[derive(Drop)]
pub struct OneDatabase;

impl<'a> OpensFiles<OneDatabase> for ThisMachine<'a> {
    fn look(&self, _opener: &OneDatabase, path: &str) -> io::Result<Look> {
        look_at(self.runtime, path)
    }

    fn open_at<S: Start>(
        &self,
        opener: OneDatabase,
        path: &str,
        new_has_sums: bool,
        start: S,
    ) -> Result<Connection<FileStore<FileFrom<S>>>, (Error, Option<Leftover<FileFrom<S>>>)> {
        drop(opener);
        Connection::open_from(self.runtime, path, new_has_sums, start)
    }
}

/// A file that is read. No clause of the system's says what it holds.
#[derive(Drop)]
pub struct ReadFile {
    file: File,
}

impl ReadAt for ReadFile {
    ghost bytes = { λ _. [] };

    ghost is_known = { λ _. false };

    fn len(&self) -> io::Result<usize> {
        let found = self.file.metadata()?;
        Ok(found.len() as usize)
    }

    fn read_at(&self, at: usize, buffer: &mut [u8]) -> io::Result<()> {
        self.file.read_exact_at(buffer, at as u64)
    }
}

impl<'a> ReadFiles for ThisMachine<'a> {
    type File = ReadFile;

    // No clause of the system's ties a path to a file.
    ghost is_file = { λ path file. Unit {0} };

    ghost is_log = { λ path file. Unit {0} };

    ghost lacks_file = { λ path. Unit {0} };

    ghost lacks_log = { λ path. Unit {0} };

    ghost fails_to_read = { λ path. Unit {0} };

    fn file_at(&self, path: &str) -> Result<Option<ReadFile>, OpenFault> {
        open(self.runtime, path)
    }

    fn log_at(&self, path: &str) -> Result<Option<ReadFile>, OpenFault> {
        let real = match fs::canonicalize(self.runtime, path) {
            Ok(real) => real,
            Err(error) => return absent(error.kind()),
        };
        let Ok(log) = format!(in self.runtime.alloc(); "{}-wal", real.as_str()) else {
            return Err(OpenFault::Memory);
        };
        open(self.runtime, log.as_str())
    }
}

/// The file at a path, to be read, if there is one.
fn open(runtime: &HostRuntime, path: &str) -> Result<Option<ReadFile>, OpenFault>
    ensures { IfErr result (IsUnread (Unit {0})) }
{
    match File::open(runtime, path) {
        Ok(file) => Ok(Some(ReadFile { file })),
        Err(error) => absent(error.kind()),
    }
}

/// That there is no file, where the error says so.
fn absent(kind: ErrorKind) -> Result<Option<ReadFile>, OpenFault>
    ensures { IfErr result (IsUnread (Unit {0})) }
{
    match kind {
        ErrorKind::NotFound => Ok(None),
        _ => Err(OpenFault::Store),
    }
}
