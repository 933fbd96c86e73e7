//! Fractions of π.
ghost use Rattle.std.specs.Prelude.{◌≡◌, ◌≤ℤ◌, pos, unsigned_abs};
ghost use Rattle.qasm_lex.specs.Fractions.{greatest_divisor};

/// A multiple of π: `num/den·π`, in lowest terms.
#[derive(Clone, Copy, Debug, PartialEq, Eq)]
pub struct PiFraction {
    pub num: i64,
    pub den: i64,
    pub ghost positive: { pos 1 ≤ℤ den },
    pub ghost lowest: { greatest_divisor (unsigned_abs num) (unsigned_abs den) ≡ 1 },
}
