//! The office as a server on this machine.
ghost use Rattle.std.specs.Prelude.{◌≡◌, ◌⊎◌, false};
ghost use Rattle.society_commands.specs.Connections.{ServesStore, StopsServingStore};
ghost use Rattle.society_commands.specs.Troubles.{Tells};

use crate::listened::Listened;
use crate::replaying::SERVED;
use crate::trouble::{Trouble, tell};
use desk_connections::{AcceptFault, Listen, Network, print, serve_connections};
use http_desk::Counted;
use society_arguments::Listening;
use society_core::{Desk, Store};
use std::alloc::Global;
use std::io::Write;
use std::net::{Ipv4Addr, SocketAddrV4};

/// Listens on this machine alone at a port, prints `listening`, and serves so many connections at the desk, and no other request. Answers
/// the exit status: 0, or 1 with one line on `err` where it cannot listen or accept. The door comes back as the last connection left it.
pub fn serve_store<N: Listen, S: Store, W: Write, E: Write>(
    net: N,
    alloc: Global,
    desk: &mut Desk<S>,
    place: Listening,
    out: &mut Counted<W>,
    err: &mut Counted<E>,
) -> (u8, Listened<N, N::Door>)
    ensures status { (result.0 ≡ 0) ⊎ (result.0 ≡ 1) }
    // The store is led from where it stood to where the last request left it.
    ensures served { result.0 ≡ 0 → ServesStore ⟦<N as Network>⟧.network S.state desk.old desk.new W.contents out.old out.new
        place place.connections false result.1 }
    ensures quiet { result.0 ≡ 0 → err.new ≡ err.old }
    // The store is the same and nothing is printed where it cannot listen; else fewer connections came. Its line says which.
    ensures broken_off { result.0 ≡ 1 → StopsServingStore ⟦<N as Network>⟧.network S.state desk.old desk.new W.contents out.old out.new
        place (Tells E.contents err.old err.new) result.1 }
{
    let address = SocketAddrV4::new(Ipv4Addr::LOCALHOST, place.port);
    let Ok(mut door) = net.listen(address, place.patience) else {
        return (
            tell(err, Trouble::NoListener(place.port)),
            Listened::Refused,
        );
    };
    print(out, b"listening\n");
    match serve_connections(alloc, desk, &mut door, place.connections, out) {
        Ok(()) => (SERVED, Listened::Door(door)),
        Err(AcceptFault) => (tell(err, Trouble::NoConnection), Listened::Door(door)),
    }
}
