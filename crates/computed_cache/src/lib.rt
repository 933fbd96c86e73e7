//! The computed cache: answers of connectives, most recently used first, at most a given number.
#![tactic(auto)]

mod cache;
mod key;

pub use cache::Cache;
pub use key::Key;
