//! The office: its book, the stores that keep it, the desk that answers requests over one, and runs.
#![tactic(auto)]

mod answers;
mod candidates;
mod claim_list;
mod desk;
mod end_fault;
mod inquiry;
mod laws;
mod line;
mod order;
mod order_fault;
mod plain_book;
mod plain_lines;
mod plain_pools;
mod plain_showings;
mod plain_store;
mod points;
mod refusal;
mod request;
mod return_key;
mod runs;
mod segment_key;
mod store;
mod transmission_key;
mod work;

pub use answers::{Answer, Arrival, Receipt, SenderStatus, Standing, Work};
pub use candidates::{Weighing, add_candidates};
pub use claim_list::{Candidate, claims};
pub use desk::Desk;
pub use end_fault::EndFault;
pub use inquiry::{Inquiry, Showing};
pub use laws::{
    balances_add_up, book_holds_what_came, book_is_what_was_accepted, closed_pools_stay,
    front_is_the_first_gap, held_numbers_wait, order_of_arrival_is_free, owners_are_alone,
    pools_are_whole, runs_keep_books_sound, statements_lead_on, what_is_accepted_stays,
    what_is_held_pays_nothing, what_waits_is_unapplied,
};
pub use order::{OrderError, PoolOrder, orders_are_sets};
pub use order_fault::OrderFault;
pub use plain_store::PlainStore;
pub use points::Tally;
pub use refusal::Refusal;
pub use request::Request;
pub use return_key::ReturnKey;
pub use runs::{answer, run};
pub use segment_key::SegmentKey;
pub use store::{Known, KnownEnd, KnownTransmission, NumberPlace, Payment, Store, StoreFault};
pub use transmission_key::TransmissionKey;
pub use work::show;
