//! What is read of a database before it is opened: a log that no stop leaves so is told, and nothing is opened.
ghost use Rattle.std.specs.Prelude.{◌≡◌, ◌↔◌, ◌<◌, length, IfErr, IfOk, IsTrue, OnOk};
ghost use Rattle.log_reading.specs.Stands.{Stands};
ghost use Rattle.society_host.specs.Examined.{HasNoTable, IsExamined, IsToldExamined, TellsStanding};
ghost use Rattle.society_host.specs.Refusals.{IsUnread};

use crate::files::HEADER;
use crate::reading::ReadFiles;
use log_reading::{LogFault, ReadAt, check_log};
use society_opening::OpenFault;
use std::alloc::Global;

/// How often a log is read that seems damaged: a program that has it open may write to it meanwhile.
const TRIES: usize = 3;

/// Bytes of the shortest log that may have a page.
const LEAST_LOG: usize = 56;

/// Bytes of a database's first page up to the number of rows in its list of tables.
const TO_TABLES: usize = 105;

/// Where the first page says how many bytes of each page are reserved, and how many are for page sums.
const RESERVED: usize = 20;

const SUM_BYTES: u8 = 8;

/// Where the list of tables begins on the first page, what it is where it fits there, and where it has the number of its rows.
const LIST: usize = 100;

const LEAF: u8 = 13;

const ROWS: usize = 103;

/// Reads the file and the log at a path before they are opened. `Log` where no stop of the office leaves the log so, `Empty` where there is a
/// database with no table and no page sums, else what is told of a path that can't be read, or `Memory`. Nothing is written.
pub(crate) fn examine<M: ReadFiles>(alloc: Global, machine: &M, path: &str) -> Result<(), OpenFault>
    ensures examined { OnOk result (IsExamined M.ReadFiles M.File.ReadAt path.now) }
    ensures told { IfErr result (IsToldExamined M.ReadFiles M.File.ReadAt path.now) }
{
    let Some(db) = machine.file_at(path)? else {
        return Ok(());
    };
    let Some(log) = machine.log_at(path)? else {
        return if is_bare(&db)? {
            Err(OpenFault::Empty)
        } else {
            Ok(())
        };
    };
    stands(alloc, &log, &db)?;
    if is_short(&log)? && is_bare(&db)? {
        return Err(OpenFault::Empty);
    }
    Ok(())
}

/// That a log is as a stop of the office can leave it beside a file.
fn stands<L: ReadAt, D: ReadAt>(alloc: Global, log: &L, db: &D) -> Result<(), OpenFault>
    ensures stands { OnOk result (IsTrue (L.is_known log.now) → IsTrue (D.is_known db.now) → Stands (L.bytes log.now) (D.bytes db.now)) }
    ensures told { IfErr result (TellsStanding (IsTrue (L.is_known log.now) × IsTrue (D.is_known db.now)) (Stands (L.bytes log.now) (D.bytes db.now))) }
{
    for _ in 1..TRIES {
        if check_log(alloc, log, db).is_ok() {
            return Ok(());
        }
    }
    match check_log(alloc, log, db) {
        Ok(()) => Ok(()),
        Err(LogFault::Damaged) => Err(OpenFault::Log),
        Err(LogFault::Memory) => Err(OpenFault::Memory),
        Err(LogFault::Unread) => Err(OpenFault::Store),
    }
}

/// Whether a log is too short to have a page.
fn is_short<L: ReadAt>(log: &L) -> Result<bool, OpenFault>
    ensures ok { IfOk result (λ short. IsTrue (L.is_known log.now) → (IsTrue short ↔ (length (L.bytes log.now) < 56))) }
    ensures err { IfErr result (IsUnread (IsTrue (L.is_known log.now) → ⊥)) }
{
    let Ok(len) = log.len() else {
        return Err(OpenFault::Store);
    };
    Ok(len < LEAST_LOG)
}

/// Whether a file is a database with no table and no page sums.
fn is_bare<D: ReadAt>(db: &D) -> Result<bool, OpenFault>
    ensures ok { IfOk result (λ bare. IsTrue (D.is_known db.now) → (IsTrue bare ↔ HasNoTable (D.bytes db.now))) }
    ensures err { IfErr result (IsUnread (IsTrue (D.is_known db.now) → ⊥)) }
{
    let Ok(len) = db.len() else {
        return Err(OpenFault::Store);
    };
    if len < TO_TABLES {
        return Ok(false);
    }
    let mut start = [0; TO_TABLES];
    let Ok(()) = db.read_at(0, &mut start) else {
        return Err(OpenFault::Store);
    };
    Ok(is_bare_by(&start))
}

/// The same, by its first bytes.
fn is_bare_by(start: &[u8; 105]) -> bool
    ensures { IsTrue result ↔ HasNoTable start.now }
{
    if &start[..16] != HEADER {
        return false;
    }
    if start[RESERVED] == SUM_BYTES {
        return false;
    }
    start[LIST] == LEAF && start[ROWS] == 0 && start[ROWS + 1] == 0
}
