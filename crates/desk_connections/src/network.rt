//! What listens, and the ways by its door, in one word.
ghost use Rattle.desk_connections.specs.Doors.{Network, network};

use crate::door::{Door, Listen};
use std::io::{Read, Write};

/// What is known of what listens, and of the ways by the door that it gives. It is so of all that listens.
pub trait Network: Listen {
    /// It, as clauses speak of it.
    ghost network: { Network Self Self.Door Self.Door.Sent Self.Door.Given };
}

impl<N: Listen> Network for N {
    ghost network = { network N.Listen N.Door.Door N.Door.Sent.Read.remaining N.Door.Given.Write.contents };
}
