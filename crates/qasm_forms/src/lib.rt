//! The forms of OpenQASM 2.0's statements, read from the lexemes of a text.
//!
//! Reading takes no memory: what a statement has in any number, arguments and angles, is read from its lexemes one by one.
#![tactic(auto)]

mod angles;
mod argument;
mod arguments;
mod laws;
mod lexemes;
mod lines;
mod names;
mod statement;

pub use angles::Angles;
pub use argument::Argument;
pub use arguments::Arguments;
pub use laws::statements_are_unambiguous;
pub use lexemes::{Closing, Lexeme, Lexemes, Stop};
pub use lines::{Line, Lines};
pub use names::Names;
pub use statement::{Form, read_statement};
