//! What is left of a database.
use sqlite::{Connection, Error, FileStore, Files, Leftover};
use sqlite_disk::Disk;

/// What is left of a database, or of what could have opened one, once its use has ended. Only who began the use lets it go, so nothing more
/// is done to it.
#[derive(Drop)]
pub enum Left<D: Disk, O> {
    /// What opens a database, as it was given: it was not used.
    Unused(O),
    /// What was to open a database, as it was given: what is at the path forbade it.
    Unopened(O),
    /// No database could be opened: the files that were refused, or no file could be opened.
    Refused(Option<Leftover<D>>),
    /// A connection that was not opened as an office's, or was audited.
    Connection(Connection<FileStore<D>>),
    /// The files of an office's tables, which were closed.
    Closed(Files<D>),
    /// What is left of an office's tables that could not be closed, and why they could not.
    Unclosed(Error, FileStore<D>),
}
