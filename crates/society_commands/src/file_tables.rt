//! What opens a database, and what is seen of the tables in it, in one word.
ghost use Rattle.society_commands.specs.Connections.{FileTables};

use crate::machine::OpenDatabase;
use society_core::Store;
use society_tables::Tables;
use sqlite::FileStore;

/// What is known of what opens databases, and of the office's tables over their files. It is so of all that opens them.
pub trait FileTables: OpenDatabase {
    /// The tables over files that it opens.
    type Kept;

    /// It and they, as clauses speak of them.
    ghost files: { FileTables Self.File Self Self.Kept };
}

impl<O: OpenDatabase> FileTables for O {
    type Kept = Tables<FileStore<O::File>>;

    ghost files = { record { file = O.File.Disk; opens = O.OpenDatabase; state = ⟦<Tables<FileStore<O::File>> as Store>⟧.state; connection = λ t. t.conn } };
}
