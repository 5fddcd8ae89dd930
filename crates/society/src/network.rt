//! The network of the machine that the program runs on. What the program does to it, it does by these calls.
ghost use Rattle.std.specs.Prelude.{None, false};

use society_host::{Came, Listener, Port, Stream};
use std::io::{self, Read, Write};
use std::net::{Shutdown, SocketAddrV4, TcpListener, TcpStream};
use std::time::Duration;

/// What listens at a port of the machine of a runtime, once.
#[derive(Drop)]
pub struct OnePort<'a> {
    runtime: &'a HostRuntime,
}

impl<'a> OnePort<'a> {
    /// A port of the machine of this runtime.
    pub fn new(runtime: &'a HostRuntime) -> OnePort<'a> {
        OnePort { runtime }
    }
}

impl<'a> Port for OnePort<'a> {
    type Listener = OpenPort;

    // No clause of the system's ties a listener to its address.
    ghost listens_at = { λ address listener. Unit {0} };

    ghost may_fail_at = { λ address. Unit {0} };

    fn bind(self, address: SocketAddrV4) -> io::Result<OpenPort> {
        let listener = TcpListener::bind(self.runtime, address)?;
        Ok(OpenPort { listener })
    }
}

/// A port at which something listens.
#[derive(Drop)]
pub struct OpenPort {
    listener: TcpListener,
}

impl Listener for OpenPort {
    type Came = NewConnection;

    // Nor a connection to its listener.
    ghost accepts = { λ port came new_port. Unit {0} };

    ghost may_fail = { λ port. Unit {0} };

    fn accept(&mut self) -> io::Result<NewConnection> {
        let (stream, _) = self.listener.accept()?;
        Ok(NewConnection { stream })
    }
}

/// A connection that came in.
#[derive(Drop)]
pub struct NewConnection {
    stream: TcpStream,
}

impl Came for NewConnection {
    type Stream = Socket;

    ghost has_handles = { λ came sent given. Unit {0} };

    ghost may_fail = { λ came. Unit {0} };

    fn handles(self) -> Result<(Socket, Socket), (io::Error, NewConnection)> {
        match self.stream.try_clone() {
            Ok(other) => {
                let NewConnection { stream } = self;
                Ok((Socket::new(stream), Socket::new(other)))
            }
            Err(error) => Err((error, self)),
        }
    }

    fn let_go(self) {
        drop(self);
    }
}

/// One handle of a connection, and the longest wait of its reads and of its writes that was asked of the system, where one was.
#[derive(Drop)]
pub struct Socket {
    stream: TcpStream,
    read_wait: Option<Duration>,
    write_wait: Option<Duration>,
}

impl Socket {
    // A handle of which no wait was asked.
    fn new(stream: TcpStream) -> Socket {
        Socket {
            stream,
            read_wait: None,
            write_wait: None,
        }
    }
}

impl Stream for Socket {
    ghost remaining = { λ socket. None };

    ghost contents = { λ socket. None };

    ghost is_shut = { λ socket. false };

    ghost is_gone = { λ socket. Unit {0} };

    // Where the system refuses a wait, the connection is served all the same: no byte of it failed.
    fn read_within(&mut self, wait: Duration, buffer: &mut [u8]) -> io::Result<usize> {
        if self.read_wait != Some(wait) {
            let _ = self.stream.set_read_timeout(Some(wait));
            self.read_wait = Some(wait);
        }
        self.stream.read(buffer)
    }

    fn write_within(&mut self, wait: Duration, bytes: &[u8]) -> io::Result<usize> {
        if self.write_wait != Some(wait) {
            let _ = self.stream.set_write_timeout(Some(wait));
            self.write_wait = Some(wait);
        }
        self.stream.write(bytes)
    }

    fn shut_writing(&mut self) -> io::Result<()> {
        self.stream.shutdown(Shutdown::Write)
    }

    fn let_go(self) {
        drop(self);
    }
}
