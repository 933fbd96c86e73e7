//! Tokens of OpenQASM 2.0, and exact angles.
//!
//! A text is cut into tokens in one pass; a list of tokens is read as an exact fraction of π.
#![tactic(auto)]

mod angles;
mod bytes;
mod descent;
mod divisor;
mod fraction;
mod laws;
mod number;
mod params;
mod pi_fraction;
mod pieces;
mod quarters;
mod refusal;
mod scanning;
mod symbol;
mod token;
mod value;

pub use angles::{angle, angle_shape, angle_value, outcome_of, shape_of};
pub use laws::{
    angles_have_one_answer, angles_have_positive_denominators, eighths_are_unique,
    every_angle_has_an_answer, every_text_has_tokens, expressions_are_unambiguous, lowest_terms,
    lowest_terms_are_unique, quarters_are_unique, slashes_begin_a_comment,
    tokens_are_at_most_the_bytes, tokens_are_the_lexemes, tokens_are_unique,
};
pub use number::number_below;
pub use params::{AngleValue, Bound};
pub use pi_fraction::PiFraction;
pub use quarters::{eighth, quarter};
pub use refusal::AngleRefusal;
pub use scanning::tokens;
pub use symbol::{Symbol, is_one_of, symbol_of};
pub use token::{Token, TokenKind, Tokens};
