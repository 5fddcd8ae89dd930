//! The routes of the office.
ghost use Rattle.std.specs.Prelude.{◌≡◌, IfOk, OnOk};
ghost use Rattle.http_text.specs.Path.{office_routes, with_book_routes, with_file_routes, with_route};

use matchit::Router;
use std::alloc::{AllocError, Global};

/// What a path leads to.
#[derive(Clone, Copy, Debug, PartialEq, Eq)]
pub enum Route {
    /// A transmission of a sender, under a plain number.
    Transmission,
    /// A transmission of a sender, under the number in the name of its file.
    File,
    /// The end of a segment of a sender's numbers.
    Segment,
    /// The acknowledgement of a transmission.
    Acknowledgement,
    /// A performance return of a reporter.
    Return,
    /// How a sender stands.
    Sender,
    /// The verdicts of a transmission.
    Verdicts,
    /// A work of a sender.
    Work,
    /// The balance of an account.
    Account,
    /// A pool: its order, and the table of its credits.
    Pool,
}

/// A router with the routes of the office; refused where memory is.
pub fn office_router(alloc: Global) -> Result<Router<Route>, AllocError>
    ensures { IfOk result (λ router. router ≡ office_routes) }
{
    let mut router = Router::new(alloc);
    add_file_routes(&mut router)?;
    add_book_routes(&mut router)?;
    Ok(router)
}

// Adds the routes of what comes as a file, of its acknowledgement, and of the ends of segments.
fn add_file_routes(router: &mut Router<Route>) -> Result<(), AllocError>
    ensures { OnOk result (router.new ≡ with_file_routes router.old) }
{
    let transmissions = "/v1/senders/{sender}/transmissions/{n}";
    add(router, transmissions, Route::Transmission)?;
    add(router, "/v1/senders/{sender}/files/{name}", Route::File)?;
    let segments = "/v1/senders/{sender}/segments/{segment}";
    add(router, segments, Route::Segment)?;
    let acks = "/v1/senders/{sender}/acks/{n}";
    add(router, acks, Route::Acknowledgement)?;
    add(router, "/v1/returns/{reporter}/{n}", Route::Return)?;
    Ok(())
}

// Adds the routes of what the book shows of senders and accounts, and of pools.
fn add_book_routes(router: &mut Router<Route>) -> Result<(), AllocError>
    ensures { OnOk result (router.new ≡ with_book_routes router.old) }
{
    add(router, "/v1/senders/{sender}", Route::Sender)?;
    add(router, "/v1/senders/{sender}/verdicts/{n}", Route::Verdicts)?;
    add(router, "/v1/senders/{sender}/works/{work}", Route::Work)?;
    add(router, "/v1/accounts/{account}", Route::Account)?;
    add(router, "/v1/pools/{pool}", Route::Pool)?;
    Ok(())
}

// Adds a route, given by its text.
fn add(router: &mut Router<Route>, text: &str, route: Route) -> Result<(), AllocError>
    ensures { OnOk result (router.new ≡ with_route text.now route router.old) }
{
    match router.insert(text, route) {
        Ok(()) => Ok(()),
        Err(_) => Err(AllocError),
    }
}
