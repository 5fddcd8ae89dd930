//! Whole transmissions: which bodies are the file of a sender, what they tell, and which fault another body has.
#![tactic(auto)]

mod builder;
mod counts;
mod dates;
mod fault;
mod fault_finder;
mod file_reader;
mod limits;
mod line_faults;
mod line_numbers;
mod progress;
mod reader;
mod record_types;
mod transmission;

pub use fault::{FileFault, ReadFault};
pub use fault_finder::find_fault;
pub use file_reader::FileReader;
pub use limits::MAX_BODY;
pub use reader::{known_transmission, one_or_the_other, read_transmission};
pub use transmission::{Group, Groups, Records, Transaction, Transactions, Transmission};
