//! The requests of the office's desk and their answers as bytes: what a method, a target and a body ask, and what is told.
#![tactic(auto)]

mod asked;
mod body_length;
mod connection_end;
mod end_text;
mod fed_put;
mod json;
mod json_body;
mod limits;
mod number_text;
mod order_text;
mod parameters;
mod requests;
mod routes;
mod short_body;
mod status;
mod table;
mod text;
mod told;

pub use asked::{Asked, ask};
pub use body_length::BodyLength;
pub use connection_end::End;
pub use fed_put::FedPut;
pub use json_body::value_of;
pub use limits::MAX_HEAD;
pub use number_text::dated_text_of;
pub use order_text::order_with;
pub use parameters::Scratch;
pub use requests::{Wanted, WithBody, request_with, wanted_for};
pub use routes::{Route, office_router};
pub use short_body::ShortBody;
pub use status::{ContentType, Status};
pub use table::{put_row, set_account};
pub use text::{put, put_head};
pub use told::{Told, tell};
