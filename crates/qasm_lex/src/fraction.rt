//! Fractions in lowest terms.
ghost use Rattle.std.specs.Prelude.{◌≡◌, ◌≤◌, ◌<◌, ◌^◌, ◌*◌, ℤ, pos, ◌≤ℤ◌, ◌<ℤ◌, ◌+ℤ◌, ◌*ℤ◌, unsigned_abs, int_div, false};
ghost use Rattle.qasm_lex.specs.Fractions.{Ratio, IsReduced, most, greatest_divisor, narrowed, fraction, whole_ratio, is_zero, negative_ratio, reciprocal, ratio_sum, ratio_product};

use crate::divisor::gcd;
use crate::pi_fraction::PiFraction;
use crate::refusal::AngleRefusal;
use std::marker::Model;

/// A fraction in lowest terms. Neither part is more than 2^63 - 1 in size, and the denominator is positive.
#[derive(Clone, Copy)]
pub struct Fraction {
    num: i64,
    den: i64,
}

impl Model for Fraction {
    ghost use Rattle.qasm_lex.specs.Fractions.{Ratio, IsReduced};

    ghost Value = { Ratio };

    ghost view = { λ f. record { num = f.num; den = f.den } };

    ghost invariant = { λ f. IsReduced f.num f.den };

    ghost inverse = { λ q. record { num = q.num; den = q.den } };
}

fn multiplied(x: i64, y: i64) -> i128
    ensures { result ≡ x *ℤ y }
{
    i128::from(x) * i128::from(y)
}

/// The product of two parts of fractions.
fn product(x: i64, y: i64) -> i128
    requires narrow { (unsigned_abs x ≤ most) × (unsigned_abs y ≤ most) }
    ensures value { result ≡ x *ℤ y }
    ensures within { unsigned_abs result ≤ most * most }
{
    multiplied(x, y)
}

/// The product of two denominators.
fn denominator(x: i64, y: i64) -> i128
    requires narrow { (unsigned_abs x ≤ most) × (unsigned_abs y ≤ most) }
    requires some { (pos 1 ≤ℤ x) × (pos 1 ≤ℤ y) }
    ensures value { result ≡ x *ℤ y }
    ensures positive { pos 1 ≤ℤ result }
{
    product(x, y)
}

fn sum_numerator(x: Fraction, y: Fraction) -> i128
    ensures { result ≡ (x.num *ℤ y.den) +ℤ (y.num *ℤ x.den) }
{
    product(x.num, y.den) + product(y.num, x.den)
}

/// The greatest size of a part.
const MOST: u128 = 9223372036854775807;

/// The fraction of parts that have no common divisor.
fn narrowed(num: i128, den: i128) -> Result<Fraction, AngleRefusal>
    requires positive { pos 1 ≤ℤ den }
    requires lowest { greatest_divisor (unsigned_abs num) (unsigned_abs den) ≡ 1 }
    ensures { result ≡ narrowed (record { num = num; den = den }) }
{
    if num.unsigned_abs() > MOST || den.unsigned_abs() > MOST {
        Err(AngleRefusal::TooWide)
    } else {
        Ok(Fraction {
            num: num as i64,
            den: den as i64,
        })
    }
}

/// What both parts have in common.
fn common(num: i128, den: i128) -> i128
    requires { pos 1 ≤ℤ den }
    ensures value { result ≡ pos (greatest_divisor (unsigned_abs num) (unsigned_abs den)) }
    ensures positive { pos 0 <ℤ result }
{
    gcd(num.unsigned_abs(), den.unsigned_abs()) as i128
}

fn divided(part: i128, by: i128) -> i128
    requires { pos 0 <ℤ by }
    ensures { result ≡ int_div part by }
{
    part / by
}

/// The fraction of this numerator and denominator, in lowest terms.
fn reduced(num: i128, den: i128) -> Result<Fraction, AngleRefusal>
    requires { pos 1 ≤ℤ den }
    ensures { result ≡ fraction num den }
{
    let common = common(num, den);
    narrowed(divided(num, common), divided(den, common))
}

impl Fraction {
    /// A whole number.
    pub fn whole(n: i64) -> Fraction
        requires { unsigned_abs n ≤ most }
        ensures { result ≡ whole_ratio n }
    {
        Fraction { num: n, den: 1 }
    }

    /// The fraction of these parts.
    pub fn of(num: i64, den: i64) -> Fraction
        requires { IsReduced num den }
        ensures { result ≡ record { num = num; den = den } }
    {
        Fraction { num, den }
    }

    pub fn is_zero(self) -> bool
        ensures { result ≡ is_zero self }
    {
        self.num == 0
    }

    pub fn negative(self) -> Fraction
        ensures { result ≡ negative_ratio self }
    {
        Fraction {
            num: -self.num,
            den: self.den,
        }
    }

    /// 1 over the fraction.
    pub fn reciprocal(self) -> Fraction
        requires { is_zero self ≡ false }
        ensures { result ≡ reciprocal self }
    {
        if self.num < 0 {
            Fraction {
                num: -self.den,
                den: -self.num,
            }
        } else {
            Fraction {
                num: self.den,
                den: self.num,
            }
        }
    }

    pub fn plus(self, other: Fraction) -> Result<Fraction, AngleRefusal>
        ensures { result ≡ ratio_sum self other }
    {
        reduced(sum_numerator(self, other), denominator(self.den, other.den))
    }

    pub fn times(self, other: Fraction) -> Result<Fraction, AngleRefusal>
        ensures { result ≡ ratio_product self other }
    {
        reduced(
            product(self.num, other.num),
            denominator(self.den, other.den),
        )
    }

    /// The fraction as a multiple of π.
    pub fn of_pi(self) -> PiFraction
        ensures reduced { IsReduced result.num result.den }
        ensures num { result.num ≡ self.num }
        ensures den { result.den ≡ self.den }
    {
        PiFraction {
            num: self.num,
            den: self.den,
        }
    }
}
