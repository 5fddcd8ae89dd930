//! Files in memory that fail each call after so many, and connections to them.
use sqlite::{Connection, FileStore, Files, Options};
use sqlite_disk::{Crash, Disk, Fuse, Memory};
use std::alloc::Global;

/// A file that fails each call after so many.
pub type Fused = Fuse<Memory>;

/// Few written pages are held and the log is short, so that a request writes more than once, and into both files.
pub const OPTIONS: Options = Options {
    cache_pages: 200,
    spill_pages: 4,
    checkpoint_frames: 3,
    seed: 7,
};

/// What a log and a database file hold.
#[derive(Drop)]
pub struct Image {
    pub log: Vec<u8>,
    pub db: Vec<u8>,
}

impl Image {
    /// Two empty files.
    pub fn empty(alloc: Global) -> Image {
        Image {
            log: Vec::new(alloc),
            db: Vec::new(alloc),
        }
    }

    /// Whether both files hold the same.
    pub fn is_same(&self, other: &Image) -> bool {
        self.log.as_slice() == other.log.as_slice() && self.db.as_slice() == other.db.as_slice()
    }
}

/// In which file the calls are counted.
#[derive(Clone, Copy, PartialEq, Eq)]
pub enum Counting {
    Log,
    Database,
}

impl Counting {
    /// What the file is called.
    pub fn name(self) -> &'static str {
        match self {
            Counting::Log => "log",
            Counting::Database => "database",
        }
    }
}

/// A file with these bytes, which passes so many calls.
fn file_of(alloc: Global, bytes: &[u8], calls: u64) -> Option<Fused> {
    let mut file = Memory::new(alloc);
    file.write_at(0, bytes).ok()?;
    file.sync().ok()?;
    Some(Fuse::new(file, calls))
}

/// Files that hold this, of which one passes so many calls and the other all.
pub fn files_of(
    alloc: Global,
    image: &Image,
    file: Counting,
    passing: u64,
) -> Option<Files<Fused>> {
    let (log, db) = match file {
        Counting::Log => (passing, u64::MAX),
        Counting::Database => (u64::MAX, passing),
    };
    Some(Files {
        log: file_of(alloc, image.log.as_slice(), log)?,
        db: file_of(alloc, image.db.as_slice(), db)?,
    })
}

/// Files that hold this and pass all calls.
pub fn whole(alloc: Global, image: &Image) -> Option<Files<Fused>> {
    files_of(alloc, image, Counting::Log, u64::MAX)
}

/// What is left of files where the process stops: all that was written.
pub fn written(alloc: Global, files: &Files<Fused>) -> Option<Image> {
    Some(Image {
        log: Vec::from_slice(alloc, files.log.inner().bytes()).ok()?,
        db: Vec::from_slice(alloc, files.db.inner().bytes()).ok()?,
    })
}

/// What is left of them where the machine stops: no more than what was synced.
pub fn synced(alloc: Global, files: Files<Fused>) -> Option<Image> {
    let Files { mut log, mut db } = files;
    log.crash();
    db.crash();
    written(alloc, &Files { log, db })
}

// What is done over files is done over any: over files by their name each call takes a minute to prove.

/// A connection to the database in files that do not fail.
pub fn connected<D: Disk + Drop>(
    alloc: Global,
    files: Files<D>,
) -> Option<Connection<FileStore<D>>> {
    if !files.log.may_be_used() || !files.db.may_be_used() {
        return None;
    }
    Connection::open_files(alloc, files, OPTIONS).ok()
}

/// Files over which statements were run, which leaves the database file alone.
fn executed<D: Disk + Drop>(alloc: Global, files: Files<D>, statements: &str) -> Option<Files<D>> {
    let mut conn = connected(alloc, files)?;
    conn.execute_batch(statements).ok()?;
    conn.close_files().ok()
}

/// What statements over files leave.
pub fn changed(alloc: Global, image: &Image, statements: &str) -> Option<Image> {
    written(alloc, &executed(alloc, whole(alloc, image)?, statements)?)
}
