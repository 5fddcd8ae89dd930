//! Where connections come in on this machine.
ghost use Rattle.std.specs.Prelude.{◌≡◌, IfErr, IfOk, OnErr, false, true};
ghost use Rattle.std.specs.IoError.{error_kind, raw_os_error};
ghost use Rattle.society_host.specs.Parting.{AcceptsAnew, CannotAccept, LetsGo};
ghost use Rattle.society_host.specs.Waiting.{IsUnspent, is_passing};

use crate::network::{Came, Listener, Port, Stream};
use crate::parting::part;
use crate::patience::Patient;
use desk_connections::{AcceptFault, Door, Listen};
use std::io::{self, ErrorKind};
use std::net::SocketAddrV4;
use std::thread;
use std::time::{Clock, Duration};

/// How often it is tried to accept a connection, where what fails says nothing of the listener.
const MOST_TRIES: u32 = 300;

/// Milliseconds between two tries.
const PAUSE: u64 = 100;

/// The system's numbers for no descriptor left, in the whole system and in this process (`ENFILE`, `EMFILE`).
const NO_DESCRIPTOR: [i32; 2] = [23, 24];

/// What listens at a port of this machine, by its clock.
#[derive(Drop)]
pub struct Host<C, P> {
    clock: C,
    port: P,
}

impl<C: Clock + Copy, P: Port> Host<C, P> {
    /// What listens so.
    pub fn new(clock: C, port: P) -> Host<C, P> {
        Host { clock, port }
    }
}

impl<C: Clock + Copy, P: Port> Listen for Host<C, P> {
    type Door = HostDoor<C, P::Listener>;

    ghost listens_at = { λ address door. P.listens_at address door.listener };

    ghost may_fail_at = { λ address. P.may_fail_at address };

    fn listen(self, address: SocketAddrV4, patience: u32) -> io::Result<HostDoor<C, P::Listener>> {
        let Host { clock, port } = self;
        let listener = port.bind(address)?;
        Ok(HostDoor {
            clock,
            listener,
            patience,
            accepted: 0,
            has_failed: false,
        })
    }
}

/// A listener that knows how many connections it accepted, and whether it ever failed to.
#[derive(Drop)]
pub struct HostDoor<C, L> {
    clock: C,
    listener: L,
    patience: u32,
    accepted: u64,
    has_failed: bool,
}

impl<C, L> HostDoor<C, L> {
    // Takes down that no connection could be accepted.
    fn fail(&mut self) -> AcceptFault
        ensures { self.new ≡ record self.old { has_failed = true } }
    {
        self.has_failed = true;
        AcceptFault
    }
}

impl<C: Clock + Copy, L: Listener> Door for HostDoor<C, L> {
    type Sent = Patient<C, <L::Came as Came>::Stream>;

    type Given = Patient<C, <L::Came as Came>::Stream>;

    ghost accepted = { λ door. door.accepted };

    ghost has_failed = { λ door. door.has_failed };

    ghost patience = { λ door. door.patience };

    ghost may_fail = { λ door new_door. CannotAccept L.Listener L.Came.Came door.listener new_door.listener door.accepted };

    ghost sent_patience = { λ way. way.waits.patience };

    ghost given_patience = { λ way. way.waits.patience };

    ghost sent_by = { λ way. way.number };

    ghost given_to = { λ way. way.number };

    ghost admits = { λ door sent given new_door. AcceptsAnew L.Listener L.Came.Came door.listener sent.stream given.stream new_door.listener
        × IsUnspent sent.waits × IsUnspent given.waits };

    ghost parts = { λ door sent given new_door. L.Came.Stream.is_gone given.stream × LetsGo L.Came.Stream.Stream sent.stream × (new_door ≡ door) };

    /// What says nothing of the listener is tried again for half a minute: that no descriptor is left, or that a peer went before it was
    /// accepted. No read and no write of a connection waits longer than half a minute, where the system lets that be set, and each way no longer
    /// than the patience in all.
    fn accept(
        &mut self,
    ) -> Result<
        (
            Patient<C, <L::Came as Came>::Stream>,
            Patient<C, <L::Came as Came>::Stream>,
        ),
        AcceptFault,
    > {
        let Some(number) = self.accepted.checked_add(1) else {
            return Err(self.fail());
        };
        let Ok(came) = accept(&self.clock, &mut self.listener) else {
            return Err(self.fail());
        };
        match handles(&self.clock, came) {
            Ok((one, other)) => {
                self.accepted = number;
                let sent = Patient::new(self.clock, one, number, self.patience);
                let given = Patient::new(self.clock, other, number, self.patience);
                Ok((sent, given))
            }
            Err(came) => {
                came.let_go();
                Err(self.fail())
            }
        }
    }

    fn part(
        &mut self,
        sent: Patient<C, <L::Came as Came>::Stream>,
        given: Patient<C, <L::Came as Came>::Stream>,
    ) {
        given.into_stream().let_go();
        part(&self.clock, sent.into_stream());
    }
}

// The next connection at a listener, as `Door` says; the error is that of the last try.
fn accept<C: Clock, L: Listener>(clock: &C, listener: &mut L) -> io::Result<L::Came>
    ensures accepted { IfOk result (λ came. L.accepts listener.old came listener.new) }
    ensures err { OnErr result (L.may_fail listener.new × (listener.new ≡ listener.old)) }
{
    for _ in 1..MOST_TRIES {
        match listener.accept() {
            Ok(came) => return Ok(came),
            Err(error) if is_passing(&error) => {
                thread::sleep(clock, Duration::from_millis(PAUSE));
            }
            Err(error) => return Err(error),
        }
    }
    listener.accept()
}

// The two handles of a connection, one for each of its ways; where no descriptor is left for a second, it is tried as an accept is. Else the
// connection, as it was.
fn handles<C: Clock, T: Came>(clock: &C, came: T) -> Result<(T::Stream, T::Stream), T>
    ensures handles { IfOk result (λ two. T.has_handles came two.0 two.1) }
    ensures open { IfOk result (λ two. (T.Stream.is_shut two.0 ≡ false) × (T.Stream.is_shut two.1 ≡ false)) }
    ensures err { IfErr result (λ left. T.may_fail came × (left ≡ came)) }
{
    let mut rest = came;
    for _ in 1..MOST_TRIES {
        match rest.handles() {
            Ok(two) => return Ok(two),
            Err((error, left)) if is_passing(&error) => {
                thread::sleep(clock, Duration::from_millis(PAUSE));
                rest = left;
            }
            Err((_, left)) => return Err(left),
        }
    }
    match rest.handles() {
        Ok(two) => Ok(two),
        Err((_, left)) => Err(left),
    }
}

// Whether an error of accepting says nothing of the listener.
fn is_passing(error: &io::Error) -> bool
    ensures { result ≡ is_passing (raw_os_error error.now) (error_kind error.now) }
{
    match error.raw_os_error() {
        Some(number) if NO_DESCRIPTOR.contains(&number) => true,
        _ => error.kind() == ErrorKind::ConnectionAborted,
    }
}
