//! How files of cases are read: what their lines say, what has come of their groups, and the words and bytes that texts write.
#![tactic(auto)]

mod line;
mod sheet;
mod words;

pub use line::Line;
pub use sheet::{Sheet, file, text, texts};
pub use words::{bytes_of, first_word, push_line};
