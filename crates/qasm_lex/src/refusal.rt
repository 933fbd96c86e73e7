//! Why an angle is refused.

/// Why a list of tokens is no exact angle. Of several reasons the one that is met first is told.
#[derive(Clone, Copy, Debug, PartialEq, Eq)]
pub enum AngleRefusal {
    /// More than 64 tokens.
    TooLong,
    /// Not an expression.
    Malformed,
    /// A decimal number, a function, a power, a power of π other than 0 and 1, or a number beside the multiple of π.
    NotExact,
    /// A division by 0.
    ZeroDivisor,
    /// A numerator or denominator of more than 2^63 - 1.
    TooWide,
}
