//! Where connections come in.
ghost use Rattle.std.specs.Prelude.{◌≡◌, ◌+◌, Bool, IfOk, OnErr, OnOk, ℕ, false, true, zero};
ghost use Rattle.std.specs.declared.net.socket_addr.SocketAddrV4.{SocketAddrV4 as Address};

use std::io::{self, Read, Write};
use std::net::SocketAddrV4;
use thiserror::Error;

/// A connection could not be accepted.
#[derive(Clone, Copy, Debug, PartialEq, Eq, Error)]
#[error("cannot accept")]
pub struct AcceptFault;

/// Where connections come in, one after another. Each has a number, from 1, and two ways: what its peer sends, and what goes to that peer.
/// Whoever takes one in can't let go of its ways but by `part`.
pub trait Door {
    /// What the peer of a connection sends.
    type Sent: Read;

    /// What goes to the peer of a connection.
    type Given: Write;

    /// How many connections came in.
    ghost accepted: { Self → ℕ };

    /// Whether one could not be accepted.
    ghost has_failed: { Self → Bool };

    /// For how many seconds it waits for the peer of a connection in all, and as many more for each MiB that comes or goes.
    ghost patience: { Self → ℕ };

    /// For how many seconds, as `patience` says, it is waited for what the peer of a connection sends.
    ghost sent_patience: { Self.Sent → ℕ };

    /// For how many seconds, as `patience` says, it is waited for the peer of a connection to take what goes to it.
    ghost given_patience: { Self.Given → ℕ };

    /// It, before and after no connection could be accepted by it.
    ghost may_fail: { Self → Self → Type 0 };

    /// The number of the connection whose peer sends this.
    ghost sent_by: { Self.Sent → ℕ };

    /// The number of the connection to whose peer this goes.
    ghost given_to: { Self.Given → ℕ };

    /// It, before and after a connection came in whose two ways these are.
    ghost admits: { Self → Self.Sent → Self.Given → Self → Type 0 };

    /// It, before and after it took back the two ways of a connection, as they were then.
    ghost parts: { Self → Self.Sent → Self.Given → Self → Type 0 };

    /// The two ways of the next connection. `AcceptFault` where none could be accepted, however often it was tried, or no more can be
    /// counted.
    fn accept(&mut self) -> Result<(Self::Sent, Self::Given), AcceptFault>
        ensures admitted { IfOk result (λ ways. admits self.old ways.0 ways.1 self.new) }
        ensures accepted { OnOk result (accepted self.new ≡ accepted self.old + 1) }
        ensures kept { OnOk result (has_failed self.new ≡ has_failed self.old) }
        ensures patient { IfOk result (λ ways. (sent_patience ways.0 ≡ patience self.old) × (given_patience ways.1 ≡ patience self.old)) }
        ensures waits { patience self.new ≡ patience self.old }
        ensures numbered { IfOk result (λ ways. (sent_by ways.0 ≡ accepted self.new) × (given_to ways.1 ≡ accepted self.new)) }
        ensures failed { OnErr result (may_fail self.old self.new) }
        ensures err { OnErr result ((accepted self.new ≡ accepted self.old) × (has_failed self.new ≡ true)) };

    /// Lets a connection go, so that its last answer arrives.
    fn part(&mut self, sent: Self::Sent, given: Self::Given)
        ensures parted { parts self.old sent given self.new }
        ensures kept { (accepted self.new ≡ accepted self.old) × (has_failed self.new ≡ has_failed self.old) }
        ensures waits { patience self.new ≡ patience self.old };
}

/// What listens at an address, once: it is used up by it, so that all connections come in by one door. Neither it nor its door can be let go
/// of, so whoever is given one hands it back, or the door.
pub trait Listen {
    /// Where connections come in at an address.
    type Door: Door;

    /// What may be listened by at an address.
    ghost listens_at: { Address → Self.Door → Type 0 };

    /// At which address nothing may be able to listen.
    ghost may_fail_at: { Address → Type 0 };

    /// Listens at an address, where nobody has come in yet, with so many seconds of patience. The error is the system's: that the port is
    /// taken, say.
    fn listen(self, address: SocketAddrV4, patience: u32) -> io::Result<Self::Door>
    where
        Self: Sized,
        ensures listens { IfOk result (λ door. listens_at address door) }
        ensures patient { IfOk result (λ door. Self.Door.Door.patience door ≡ patience) }
        ensures new { IfOk result (λ door. (Self.Door.Door.accepted door ≡ zero) × (Self.Door.Door.has_failed door ≡ false)) }
        ensures err { OnErr result (may_fail_at address) };
}
