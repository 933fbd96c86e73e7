//! Values of angles.
ghost use Rattle.std.specs.Prelude.{◌≡◌, ◌≤◌, unsigned_abs, Ok, Err, Option, Some, []};
ghost use Rattle.qasm_lex.specs.Fractions.{most};
ghost use Rattle.qasm_lex.specs.Angles.{answer_of, value_by, given_by};
ghost use Rattle.qasm_lex.specs.Values.{whole_value, pi_value, negative_value, value_sum, value_difference, scaled, value_product, value_quotient, values, multiple_of};

use crate::fraction::Fraction;
use crate::params::{AngleValue, Bound};
use crate::pi_fraction::PiFraction;
use crate::refusal::AngleRefusal;

/// `u + v·π`.
#[derive(Clone, Copy)]
pub struct Value {
    pub u: Fraction,
    pub v: Fraction,
}

/// A value, or the refusal that was met first.
pub type Outcome = Result<Value, AngleRefusal>;

/// The greatest size of a whole number.
const MOST: u64 = 9223372036854775807;

impl Value {
    fn whole(n: i64) -> Value
        requires { unsigned_abs n ≤ most }
        ensures { result ≡ whole_value n }
    {
        Value {
            u: Fraction::whole(n),
            v: Fraction::whole(0),
        }
    }

    fn bound(value: AngleValue) -> Value
        ensures { result ≡ value_by value }
    {
        Value {
            u: Fraction::of(value.u_num, value.u_den),
            v: Fraction::of(value.v_num, value.v_den),
        }
    }

    /// The value by its numbers.
    pub fn shown(self) -> AngleValue
        ensures { value_by result ≡ self }
    {
        let u = self.u.of_pi();
        let v = self.v.of_pi();
        AngleValue {
            u_num: u.num,
            u_den: u.den,
            v_num: v.num,
            v_den: v.den,
        }
    }

    fn negative(self) -> Value
        ensures { result ≡ negative_value self }
    {
        Value {
            u: self.u.negative(),
            v: self.v.negative(),
        }
    }

    #[tactic(auto, unfolding(crate::specs::Values::value_sum))]
    fn plus(self, other: Value) -> Outcome
        ensures { result ≡ value_sum self other }
    {
        Ok(Value {
            u: self.u.plus(other.u)?,
            v: self.v.plus(other.v)?,
        })
    }

    #[tactic(auto, unfolding(crate::specs::Values::value_difference))]
    fn minus(self, other: Value) -> Outcome
        ensures { result ≡ value_difference self other }
    {
        self.plus(other.negative())
    }

    #[tactic(auto, unfolding(crate::specs::Values::scaled))]
    fn scaled(self, by: Fraction) -> Outcome
        ensures { result ≡ scaled self by }
    {
        Ok(Value {
            u: self.u.times(by)?,
            v: self.v.times(by)?,
        })
    }

    #[tactic(auto, unfolding(crate::specs::Values::value_product))]
    fn times(self, other: Value) -> Outcome
        ensures { result ≡ value_product self other }
    {
        if other.v.is_zero() {
            self.scaled(other.u)
        } else if self.v.is_zero() {
            other.scaled(self.u)
        } else {
            Err(AngleRefusal::NotExact)
        }
    }

    #[tactic(auto, unfolding(crate::specs::Values::value_quotient))]
    fn over(self, other: Value) -> Outcome
        ensures { result ≡ value_quotient self other }
    {
        if !other.v.is_zero() {
            Err(AngleRefusal::NotExact)
        } else if other.u.is_zero() {
            Err(AngleRefusal::ZeroDivisor)
        } else {
            self.scaled(other.u.reciprocal())
        }
    }
}

impl AngleValue {
    /// The multiple of π that it is.
    pub fn of_pi(self) -> Result<PiFraction, AngleRefusal>
        ensures { answer_of result ≡ multiple_of (Ok (value_by self)) }
    {
        if self.u_num == 0 {
            Ok(PiFraction {
                num: self.v_num,
                den: self.v_den,
            })
        } else {
            Err(AngleRefusal::NotExact)
        }
    }
}

/// The value of a whole number, where it isn't too wide.
pub fn number(n: Option<i64>) -> Outcome
    ensures { result ≡ (values []).of_whole n }
{
    match n {
        Some(k) if k.unsigned_abs() <= MOST => Ok(Value::whole(k)),
        _ => Err(AngleRefusal::TooWide),
    }
}

pub fn pi() -> Outcome
    ensures { result ≡ (values []).of_pi }
{
    Ok(Value {
        u: Fraction::whole(0),
        v: Fraction::whole(1),
    })
}

/// The value of the parameter of this number.
pub fn param(bound: &[Bound], number: usize) -> Outcome
    ensures { result ≡ (values (given_by bound.now)).of_param number }
{
    match bound.get(number) {
        Some(b) => Ok(Value::bound(b.value)),
        None => Ok(Value::whole(0)),
    }
}

pub fn sum(x: Outcome, y: Outcome) -> Outcome
    ensures { result ≡ (values []).sum x y }
{
    x?.plus(y?)
}

pub fn difference(x: Outcome, y: Outcome) -> Outcome
    ensures { result ≡ (values []).difference x y }
{
    x?.minus(y?)
}

pub fn product(x: Outcome, y: Outcome) -> Outcome
    ensures { result ≡ (values []).product x y }
{
    x?.times(y?)
}

pub fn quotient(x: Outcome, y: Outcome) -> Outcome
    ensures { result ≡ (values []).quotient x y }
{
    x?.over(y?)
}

pub fn negative(x: Outcome) -> Outcome
    ensures { result ≡ (values []).negative x }
{
    Ok(x?.negative())
}

/// A power is never exact, but the refusals of its operands come first.
pub fn power(x: Outcome, y: Outcome) -> Outcome
    ensures { result ≡ (values []).power x y }
{
    let _ = x?;
    let _ = y?;
    Err(AngleRefusal::NotExact)
}

/// What a function gives is never exact, but the refusal of its operand comes first.
pub fn call(x: Outcome) -> Outcome
    ensures { result ≡ (values []).call x }
{
    let _ = x?;
    Err(AngleRefusal::NotExact)
}

/// The multiple of π that the value is.
pub fn multiple(x: Outcome) -> Result<Fraction, AngleRefusal>
    ensures { result ≡ multiple_of x }
{
    let value = x?;
    if value.u.is_zero() {
        Ok(value.v)
    } else {
        Err(AngleRefusal::NotExact)
    }
}
