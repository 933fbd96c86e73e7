//! Snapshots: a vector over diagrams as a text, of which each snapshot has exactly one.
#![tactic(auto)]

mod least;
mod loaded;
mod loading;
mod making;
mod numbering;
mod numerals;
mod ordering;
mod saving;
mod shape;
mod text;
mod visiting;

pub use loaded::{LoadStop, Loaded};
pub use loading::load_text;
pub use saving::{SaveStop, save_text, save_within};
