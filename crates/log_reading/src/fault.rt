use thiserror::Error;

/// Why a log was not found to be as a stop of the office leaves it.
#[derive(Clone, Copy, Debug, PartialEq, Eq, Error)]
pub enum LogFault {
    /// No stop of the office leaves it so: what was flushed has changed or is gone.
    #[error("the log is damaged")]
    Damaged,

    /// Memory was refused.
    #[error("memory fault")]
    Memory,

    /// One of the two files could not be read.
    #[error("the log could not be read")]
    Unread,
}
