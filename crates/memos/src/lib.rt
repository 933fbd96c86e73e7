//! The memo of a connective: the results of one call by their three arguments, in memory that is kept
//! from call to call.
//!
//! Open addressing, where each place has the stamp of the call that wrote it: a place of an earlier
//! call counts as free.
#![tactic(auto)]

mod memo;

pub use memo::Memo;
