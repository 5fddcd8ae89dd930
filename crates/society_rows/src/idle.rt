//! Connections at rest.
ghost use Rattle.std.specs.Prelude.{◌≡◌, false, IfErr, IfOk, IsTrue};
ghost use Rattle.sqlite.specs.Held.{state};

use sqlite::{Alter, Connection};
use std::marker::Model;

/// A connection at rest: it is in no transaction. A contract sees it as the connection that it holds, `connection`, on which a
/// transaction begins; that one has to be over again when the function ends.
#[derive(Drop)]
pub struct Idle<S: Alter> {
    pub connection: Connection<S>,
}

impl<S: Alter> Model for Idle<S> {
    ghost use Rattle.std.specs.Prelude.{◌≡◌, false};
    ghost use Rattle.sqlite.specs.Held.{Held, held_code};

    ghost Value = { Held S };

    ghost coded = { held_code S.code };

    ghost view = { λ idle. idle.connection };

    ghost invariant = { λ idle. idle.connection.in_transaction ≡ false };
}

impl<S: Alter> Idle<S> {
    /// A connection at rest; the connection comes back where a transaction is open on it.
    pub fn new(connection: Connection<S>) -> Result<Idle<S>, Connection<S>>
        ensures same { IfOk result (λ idle. idle ≡ connection) }
        ensures back { IfErr result (λ other. other ≡ connection) }
    {
        if connection.is_autocommit() {
            Ok(Idle { connection })
        } else {
            Err(connection)
        }
    }

    /// The connection, which is in no transaction.
    pub fn into_connection(self) -> Connection<S>
        ensures same { result ≡ self }
        ensures idle { result.in_transaction ≡ false }
    {
        let Idle { connection } = self;
        connection
    }

    /// Does nothing: it tells a proof that an open connection at rest shows what its last commit left.
    pub fn see_last_commit(&self)
        ensures settled { IsTrue (state S.Store self.now).is_open → (state S.Store self.now).now ≡ (state S.Store self.now).committed }
    {
        let _at_rest = self.connection.is_autocommit();
    }
}
