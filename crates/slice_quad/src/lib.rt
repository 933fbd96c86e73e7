//! Quadruples of integers for each assignment of the variables: a vector or a matrix over a power of √2.
//!
//! The coefficients of aω³ + bω² + cω + d are four integers whose bits are functions in a shared decision
//! diagram. A step multiplies all entries at once by a gate's matrix.
#![tactic(auto)]

mod basis;
mod controls;
mod coord;
mod crossing;
mod diagonal;
mod fields;
mod flip;
mod four;
mod fourfold;
mod gate;
mod kind;
mod nodes;
mod quad;
mod raw;
mod reading;
mod settle;
mod stepping;
mod stop;
mod term;
mod unit_matrix;
mod walk;
mod widths;
mod within;

pub use basis::start;
pub use coord::{Coord, Turn, rotate};
pub use fields::{bits, exponent, kept, roots, width};
pub use four::Four;
pub use kind::Step;
pub use quad::SliceQuad;
pub use reading::entry;
pub use stepping::step;
pub use stop::QuadStop;
pub use unit_matrix::identity;
pub use walk::next_nonzero;
