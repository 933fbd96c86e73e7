//! Values of angles, and parameters that have them.
ghost use Rattle.qasm_lex.specs.Fractions.{IsReduced};

/// The value `u + v·π` of an angle: two fractions in lowest terms. Neither part of one is more than 2^63 - 1 in size, and denominators are
/// positive.
#[derive(Clone, Copy, Debug, PartialEq, Eq)]
pub struct AngleValue {
    pub u_num: i64,
    pub u_den: i64,
    pub v_num: i64,
    pub v_den: i64,
    pub ghost u: { IsReduced u_num u_den },
    pub ghost v: { IsReduced v_num v_den },
}

/// A parameter, by the place of its name in the text, with its value.
#[derive(Clone, Copy, Debug, PartialEq, Eq)]
pub struct Bound {
    pub from: u32,
    pub to: u32,
    pub value: AngleValue,
}
