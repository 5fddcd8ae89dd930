//! All that the office asks of the network of the machine that it runs on.
ghost use Rattle.std.specs.Prelude.{◌≡◌, ◌≤◌, ◌*◌, ◌^◌, Bool, IfErr, IfOk, List, OnErr, Option, false, ℕ};
ghost use Rattle.std.specs.Duration.{as_nanos};
ghost use Rattle.std.specs.Io.{ReadsAtMost, WritesAtMost};
ghost use Rattle.std.specs.Io.KnownBytes.{ReadConsumes, WriteAppends};
ghost use Rattle.std.specs.declared.net.socket_addr.SocketAddrV4.{SocketAddrV4 as Address};

use std::io;
use std::net::SocketAddrV4;
use std::time::Duration;

/// What listens at an address, once: it is used up by it.
pub trait Port {
    /// What listens at an address.
    type Listener: Listener;

    /// What may be listened by at an address.
    ghost listens_at: { Address → Self.Listener → Type 0 };

    /// At which address nothing may be able to listen.
    ghost may_fail_at: { Address → Type 0 };

    /// Listens at an address. The error is the system's.
    fn bind(self, address: SocketAddrV4) -> io::Result<Self::Listener>
    where
        Self: Sized,
        ensures listens { IfOk result (listens_at address) }
        ensures err { OnErr result (may_fail_at address) };
}

/// What listens.
pub trait Listener {
    /// A connection that came in.
    type Came: Came;

    /// It, before and after this connection came in.
    ghost accepts: { Self → Self.Came → Self → Type 0 };

    /// No connection can be accepted by it.
    ghost may_fail: { Self → Type 0 };

    /// The next connection. The error is the system's; then it is as before.
    fn accept(&mut self) -> io::Result<Self::Came>
        ensures accepted { IfOk result (λ came. accepts self.old came self.new) }
        ensures err { OnErr result (may_fail self.new × (self.new ≡ self.old)) };
}

/// A connection that came in, of which nothing was read and to which nothing was written. Whoever has one can't let go of it but by `handles` and
/// `let_go`.
pub trait Came {
    /// One handle of it.
    type Stream: Stream;

    /// These are its two handles.
    ghost has_handles: { Self → Self.Stream → Self.Stream → Type 0 };

    /// It can have no two.
    ghost may_fail: { Self → Type 0 };

    /// Its two handles, once: it is used up by it. The error is the system's, with the connection as it was.
    fn handles(self) -> Result<(Self::Stream, Self::Stream), (io::Error, Self)>
    where
        Self: Sized,
        ensures handles { IfOk result (λ two. has_handles self two.0 two.1) }
        ensures open { IfOk result (λ two. (Self.Stream.Stream.is_shut two.0 ≡ false) × (Self.Stream.Stream.is_shut two.1 ≡ false)) }
        ensures err { IfErr result (λ e. may_fail self × (e.1 ≡ self)) };

    /// Lets it go unserved.
    fn let_go(self)
    where
        Self: Sized;
}

/// One handle of a connection: what its peer sends is read by it, and what goes to that peer is written to it. None waits for its peer for longer
/// than half a minute at once. Whoever has one can't let go of it but by `let_go`.
pub trait Stream {
    /// What its peer sends from here on, where that is known.
    ghost remaining: { Self → Option (List ℕ) };

    /// What went to its peer, where that is known.
    ghost contents: { Self → Option (List ℕ) };

    /// Whether nothing more can go to its peer.
    ghost is_shut: { Self → Bool };

    /// It was let go of as it is.
    ghost is_gone: { Self → Type 0 };

    /// One read, as `Read` has it, that waits so long at most, where the system lets that be set. The error is the system's.
    fn read_within(&mut self, wait: Duration, buffer: &mut [u8]) -> io::Result<usize>
        requires { as_nanos wait ≤ 30 * 10 ^ 9 }
        ensures bound { ReadsAtMost result buffer.new }
        ensures bytes { ReadConsumes (remaining self.old) (remaining self.new) result buffer.new }
        ensures unwritten { contents self.new ≡ contents self.old }
        ensures open { is_shut self.new ≡ is_shut self.old };

    /// One write, as `Write` has it, that waits so long at most, where the system lets that be set. The error is the system's.
    fn write_within(&mut self, wait: Duration, bytes: &[u8]) -> io::Result<usize>
        requires { as_nanos wait ≤ 30 * 10 ^ 9 }
        ensures bound { WritesAtMost result bytes.now }
        ensures bytes { WriteAppends (contents self.old) (contents self.new) result bytes.now }
        ensures open { is_shut self.new ≡ is_shut self.old };

    /// Ends what goes to the peer. The error is the system's.
    fn shut_writing(&mut self) -> io::Result<()>
        ensures kept { remaining self.new ≡ remaining self.old }
        ensures written { contents self.new ≡ contents self.old };

    /// Lets this handle go.
    fn let_go(self)
    where
        Self: Sized,
        ensures gone { is_gone self };
}
