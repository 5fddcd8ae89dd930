//! An audit of a book's tables in one transaction, exact both ways: where it passes they hold the book that they stand for, with exactly
//! what is derived of it, and where it tells of damage they hold no such book.
#![tactic(auto)]

mod alike;
mod auditing;
mod balances;
mod credit_owners;
mod credits;
mod entries;
mod lines;
mod order_parts;
mod paying;
mod pool_orders;
mod pool_tables;
mod reached;
mod reading;
mod reported;
mod returns;
mod sent;
mod standing;
mod stated;
mod strangers;
mod totals;

pub use auditing::audit;
pub use credits::paid_by;
pub use entries::entries_in;
pub use lines::{run_of, settled_line};
pub use paying::works_of;
pub use pool_orders::ClosedPool;
pub use reached::{Reach, reach_of};
pub use reading::worked_out;
pub use returns::is_there;
pub use standing::orders_in;
pub use totals::Totals;
