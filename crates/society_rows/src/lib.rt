//! The tables of the office in SQLite: typed rows, what is asked of them, and what is written.
//!
//! The rows of a table stand for a set, seen as a list up to its order. But for `create`, each call runs within a
//! transaction of the caller's and commits nothing. Over layout 3, and where the disk told the truth, a fault is want
//! of memory or a failure that SQLite told, but for `Damaged` of a reader and of units that are not one row or none,
//! `Overflow` of a sum, and what ends a fold.
#![tactic(auto)]

mod balances;
mod credits;
mod derived_tables;
mod fault;
mod finding;
mod folding;
mod fronts;
mod idle;
mod keys;
mod layout;
mod mechanical_pools;
mod new_rows;
mod numbering;
mod office;
mod older;
mod pairing;
mod pool_cuts;
mod pool_returns;
mod pools;
mod questions;
mod raising;
mod reading;
mod recordings;
mod returns;
mod segment_ends;
mod shapes;
mod statement;
mod tables;
mod transmissions;
mod verdicts;
mod versions;

pub use balances::{BalanceRow, add_units};
pub use credits::CreditRow;
pub use derived_tables::DerivedTable;
pub use fault::RowFault;
pub use finding::{Found, layout_found};
pub use folding::{RowFold, fold_run};
pub use fronts::{FrontRow, put_front};
pub use idle::Idle;
pub use keys::keys_are_values;
pub use layout::create;
pub use mechanical_pools::MechanicalPoolRow;
pub use new_rows::{NewRows, add};
pub use numbering::are_numbered;
pub use office::{LAYOUT, OfficeRow};
pub use older::OlderLayout;
pub use pairing::add_all;
pub use pool_cuts::PoolCutRow;
pub use pool_returns::PoolReturnRow;
pub use pools::PoolRow;
pub use questions::{Question, answer, ask};
pub use raising::raise_inside;
pub use recordings::RecordingRow;
pub use returns::ReturnRow;
pub use segment_ends::SegmentEndRow;
pub use tables::{TableName, all_rows};
pub use transmissions::{TransmissionKeyRow, TransmissionRow};
pub use verdicts::VerdictRow;
pub use versions::VersionRow;
