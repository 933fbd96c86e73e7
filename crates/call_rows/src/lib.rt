//! What programs share whose rows are calls: the words of a row, and the bytes that are told.
#![tactic(auto)]

mod page;
mod row;

pub use page::Page;
pub use row::Row;
