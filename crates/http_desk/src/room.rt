//! The room of a connection.
ghost use Rattle.std.specs.Prelude.{◌≡◌, [], IfOk};
ghost use Rattle.http_desk.specs.Input.{unread};
ghost use Rattle.http_desk.specs.Outbox.{waiting};
ghost use Rattle.http_desk.specs.Room.{IsReady};

use crate::input::Input;
use crate::outbox::Outbox;
use http_text::{Route, Scratch, ShortBody, office_router};
use matchit::Router;
use std::alloc::{AllocError, Global};

/// What a connection takes before its first read, and no more after but for bodies.
#[derive(Drop)]
pub(crate) struct Room {
    pub router: Router<Route>,
    pub input: Input,
    pub parameter: Scratch,
    pub body: ShortBody,
    pub outbox: Outbox,
}

/// The room of a connection of so many turns, before its first read.
pub(crate) fn make_room(alloc: Global, turns: u64) -> Result<Room, AllocError>
    ensures ready { IfOk result IsReady }
    ensures unread { IfOk result (λ room. unread room.input ≡ []) }
    ensures waiting { IfOk result (λ room. waiting room.outbox ≡ []) }
    ensures turns { IfOk result (λ room. room.input.turns ≡ turns) }
{
    let router = office_router(alloc)?;
    let input = Input::new(alloc, turns)?;
    let (parameter, body, outbox) = make_texts(alloc)?;
    Ok(Room {
        router,
        input,
        parameter,
        body,
        outbox,
    })
}

// The room for the texts of a connection: a parameter, a body, and the answers that wait.
fn make_texts(alloc: Global) -> Result<(Scratch, ShortBody, Outbox), AllocError>
    ensures { IfOk result (λ texts. waiting texts.2 ≡ []) }
{
    let parameter = Scratch::new(alloc)?;
    let body = ShortBody::new(alloc)?;
    let outbox = Outbox::new(alloc)?;
    Ok((parameter, body, outbox))
}
