//! The requests of the office, by method, target and body.
ghost use Rattle.std.specs.Prelude.{◌≡◌, ◌≢◌, ◌≤◌, ℕ, List, length, IfOk, OnErr};
ghost use Rattle.society_core.specs.Requests.{AsksElsewhere, query_of};
ghost use Rattle.http_text.specs.declared.routes.Route.TheVariants as route;
ghost use Rattle.http_text.specs.Parameters.{IsTaken, parts_of};
ghost use Rattle.http_text.specs.Part.{max_head};
ghost use Rattle.http_text.specs.Wanted.{asked_whole, asked_with};
ghost use Rattle.http_text.specs.Path.{office_routes, is_path_byte, is_path, asked_by_put, asked_of, inquiry_at, query_for};

use crate::end_text::state_by;
use crate::order_text::close_by;
use crate::parameters::{
    Scratch, account_in_path, file_number_in_path, number_in_path, plain_number_in_path,
    pool_in_path, reporter_in_path, return_number_in_path, segment_in_path, sender_in_path,
    work_in_path,
};
use crate::routes::Route;
use matchit::{Params, Router};
use society_core::{Inquiry, Request, ReturnKey, TransmissionKey};
use std::alloc::{AllocError, Global};
use std::str;
use work_ids::{PoolNumber, Segment, SenderKey};

/// What is asked, as far as a method and a target tell it, by how its body comes to the desk.
#[derive(Drop)]
pub enum Wanted {
    /// To put this transmission, whose body is fed while it comes.
    Fed(TransmissionKey),
    /// This, with a body that is read whole first.
    Whole(WithBody),
}

/// What is asked with a body that is read whole.
#[derive(Drop)]
pub enum WithBody {
    /// To take down where this sender says that this segment ends.
    Segment { sender: SenderKey, segment: Segment },
    /// To put this performance return.
    Return(ReturnKey),
    /// To close this pool.
    Pool(PoolNumber),
    /// To be shown this, whatever the body.
    Show(Inquiry),
    /// Something that the office does not have, whatever the body.
    Elsewhere,
}

// What is asked where a target stands for nothing that the office has.
fn elsewhere() -> Wanted
    ensures { result ≡ Wanted.Whole WithBody.Elsewhere }
{
    Wanted::Whole(WithBody::Elsewhere)
}

// Whether a byte can stand in a path of the office.
fn is_path_byte(byte: u8) -> bool
    ensures { result ≡ is_path_byte byte }
{
    byte < 128 && !(byte == b'?' || byte == b'#')
}

// Whether a target can be a path of the office.
fn is_path(target: &[u8]) -> bool
    ensures { result ≡ is_path target.now }
{
    target.iter().all(|byte| is_path_byte(*byte))
}

// The put of a transmission under a plain number.
fn put_of_transmission(scratch: &mut Scratch, params: &Params<'_, '_>) -> Option<Wanted>
    requires { IsTaken params.now }
    ensures asks { (society : ℕ) (body : List ℕ)
        → asked_of (λ wanted. asked_with wanted body) result ≡ asked_by_put society route.Transmission (parts_of params.now) body }
{
    let sender = sender_in_path(scratch, params)?;
    let number = plain_number_in_path(scratch, params)?;
    Some(Wanted::Fed(TransmissionKey { sender, number }))
}

// The put of a transmission under the number in the name of its file, which is sent to this society.
fn put_of_file(society: u16, scratch: &mut Scratch, params: &Params<'_, '_>) -> Option<Wanted>
    requires { IsTaken params.now }
    ensures asks { (body : List ℕ)
        → asked_of (λ wanted. asked_with wanted body) result ≡ asked_by_put society route.File (parts_of params.now) body }
{
    let sender = sender_in_path(scratch, params)?;
    let number = file_number_in_path(society, scratch, params)?;
    Some(Wanted::Fed(TransmissionKey { sender, number }))
}

// The statement of the end of a segment.
fn put_of_segment(scratch: &mut Scratch, params: &Params<'_, '_>) -> Option<Wanted>
    requires { IsTaken params.now }
    ensures asks { (society : ℕ) (body : List ℕ)
        → asked_of (λ wanted. asked_with wanted body) result ≡ asked_by_put society route.Segment (parts_of params.now) body }
{
    let sender = sender_in_path(scratch, params)?;
    let segment = segment_in_path(scratch, params)?;
    Some(Wanted::Whole(WithBody::Segment { sender, segment }))
}

// The put of a performance return.
fn put_of_return(scratch: &mut Scratch, params: &Params<'_, '_>) -> Option<Wanted>
    requires { IsTaken params.now }
    ensures asks { (society : ℕ) (body : List ℕ)
        → asked_of (λ wanted. asked_with wanted body) result ≡ asked_by_put society route.Return (parts_of params.now) body }
{
    let reporter = reporter_in_path(scratch, params)?;
    let number = return_number_in_path(scratch, params)?;
    Some(Wanted::Whole(WithBody::Return(ReturnKey { reporter, number })))
}

// The close of a pool.
fn put_of_pool(scratch: &mut Scratch, params: &Params<'_, '_>) -> Option<Wanted>
    requires { IsTaken params.now }
    ensures asks { (society : ℕ) (body : List ℕ)
        → asked_of (λ wanted. asked_with wanted body) result ≡ asked_by_put society route.Pool (parts_of params.now) body }
{
    let pool = pool_in_path(scratch, params)?;
    Some(Wanted::Whole(WithBody::Pool(pool)))
}

// What a put asks the office of a society of a route.
fn put_of(
    society: u16,
    route: Route,
    scratch: &mut Scratch,
    params: &Params<'_, '_>,
) -> Option<Wanted>
    requires { IsTaken params.now }
    ensures asks { (body : List ℕ)
        → asked_of (λ wanted. asked_with wanted body) result ≡ asked_by_put society route (parts_of params.now) body }
{
    match route {
        Route::Transmission => put_of_transmission(scratch, params),
        Route::File => put_of_file(society, scratch, params),
        Route::Segment => put_of_segment(scratch, params),
        Route::Return => put_of_return(scratch, params),
        Route::Pool => put_of_pool(scratch, params),
        _ => None,
    }
}

// The question for an acknowledgement.
fn get_of_acknowledgement(scratch: &mut Scratch, params: &Params<'_, '_>) -> Option<Inquiry>
    requires { IsTaken params.now }
    ensures asks { result ≡ inquiry_at route.Acknowledgement (parts_of params.now) }
{
    let sender = sender_in_path(scratch, params)?;
    let number = number_in_path(scratch, params)?;
    Some(Inquiry::Acknowledgement { sender, number })
}

// The question how a sender stands.
fn get_of_sender(scratch: &mut Scratch, params: &Params<'_, '_>) -> Option<Inquiry>
    requires { IsTaken params.now }
    ensures asks { result ≡ inquiry_at route.Sender (parts_of params.now) }
{
    let sender = sender_in_path(scratch, params)?;
    Some(Inquiry::Sender { sender })
}

// The question for the verdicts of a transmission.
fn get_of_verdicts(scratch: &mut Scratch, params: &Params<'_, '_>) -> Option<Inquiry>
    requires { IsTaken params.now }
    ensures asks { result ≡ inquiry_at route.Verdicts (parts_of params.now) }
{
    let sender = sender_in_path(scratch, params)?;
    let number = number_in_path(scratch, params)?;
    Some(Inquiry::Verdicts { sender, number })
}

// The question for a sender's work.
fn get_of_work(scratch: &mut Scratch, params: &Params<'_, '_>) -> Option<Inquiry>
    requires { IsTaken params.now }
    ensures asks { result ≡ inquiry_at route.Work (parts_of params.now) }
{
    let sender = sender_in_path(scratch, params)?;
    let work = work_in_path(scratch, params)?;
    Some(Inquiry::Work { sender, work })
}

// The question for an account's balance.
fn get_of_balance(scratch: &mut Scratch, params: &Params<'_, '_>) -> Option<Inquiry>
    requires { IsTaken params.now }
    ensures asks { result ≡ inquiry_at route.Account (parts_of params.now) }
{
    let account = account_in_path(scratch, params)?;
    Some(Inquiry::Balance { account })
}

// The question for a pool's table.
fn get_of_table(scratch: &mut Scratch, params: &Params<'_, '_>) -> Option<Inquiry>
    requires { IsTaken params.now }
    ensures asks { result ≡ inquiry_at route.Pool (parts_of params.now) }
{
    let pool = pool_in_path(scratch, params)?;
    Some(Inquiry::Credits { pool })
}

// What a get asks to be shown of a route.
fn get_of(route: Route, scratch: &mut Scratch, params: &Params<'_, '_>) -> Option<Inquiry>
    requires { IsTaken params.now }
    ensures asks { result ≡ inquiry_at route (parts_of params.now) }
{
    match route {
        Route::Acknowledgement => get_of_acknowledgement(scratch, params),
        Route::Sender => get_of_sender(scratch, params),
        Route::Verdicts => get_of_verdicts(scratch, params),
        Route::Work => get_of_work(scratch, params),
        Route::Account => get_of_balance(scratch, params),
        Route::Pool => get_of_table(scratch, params),
        Route::Transmission | Route::File | Route::Segment | Route::Return => None,
    }
}

/// What is asked of the office of a society by a method and a target, whatever body comes with them; a parameter is
/// decoded in the scratch.
pub fn wanted_for(
    society: u16,
    router: &Router<Route>,
    scratch: &mut Scratch,
    put: bool,
    target: &[u8],
) -> Wanted
    requires routes { router.now ≡ office_routes }
    requires short { length target.now ≤ max_head }
    ensures asks { (body : List ℕ) → asked_with result body ≡ query_for society put target.now body }
{
    if !is_path(target) {
        return elsewhere();
    }
    let Ok(path) = str::from_utf8(target) else {
        return elsewhere();
    };
    let Ok(found) = router.at(path) else {
        return elsewhere();
    };
    if put {
        return put_of(society, *found.value, scratch, &found.params).unwrap_or(elsewhere());
    }
    match get_of(*found.value, scratch, &found.params) {
        Some(inquiry) => Wanted::Whole(WithBody::Show(inquiry)),
        None => elsewhere(),
    }
}

/// What is asked with a body that was read whole. `AllocError` where memory is refused while JSON is read.
pub fn request_with<'b>(
    alloc: Global,
    wanted: WithBody,
    body: &'b [u8],
) -> Result<Request<'b>, AllocError>
    ensures asks { IfOk result (λ request. query_of request ≡ asked_whole wanted body.now) }
    ensures refused { OnErr result (asked_whole wanted body.now ≢ AsksElsewhere) }
{
    match wanted {
        WithBody::Segment { sender, segment } => state_by(alloc, sender, segment, body),
        WithBody::Return(key) => Ok(Request::PutReturn { key, body }),
        WithBody::Pool(pool) => close_by(alloc, pool, body),
        WithBody::Show(inquiry) => Ok(Request::Show(inquiry)),
        WithBody::Elsewhere => Ok(Request::Elsewhere),
    }
}
