//! Expressions, read by descent through the ranks of the grammar.
//!
//! A refusal is carried on as a value, so that a wrong shape anywhere in the expression is told before it.
ghost use Rattle.std.specs.Prelude.{◌≡◌, ◌<◌, length, IfSome};
ghost use Rattle.qasm_lex.specs.Angles.{given_by};
ghost use Rattle.qasm_lex.specs.Private.Descent.{parsed, seen, close, expr, term, factor, power, atom, whole_of};

use crate::params::Bound;
use crate::refusal::AngleRefusal;
use crate::symbol::Symbol;
use crate::value::{
    Outcome, call, difference, negative, number, param, pi, power as raised, product, quotient, sum,
};

/// The symbols that are left to read.
#[derive(Drop)]
struct Reader<'a> {
    rest: &'a [Symbol],
}

impl<'a> Reader<'a> {
    #[tactic(auto, using(crate::proofs::Steps::expr_step, crate::proofs::Steps::terms_plus, crate::proofs::Steps::terms_minus, crate::proofs::Steps::terms_other, crate::proofs::Steps::terms_empty))]
    #[cycle(descent)]
    fn expression(&mut self, bound: &[Bound]) -> Option<Outcome>
        ensures parsed { seen result self.new.rest.now ≡ parsed (given_by bound.now) expr self.old.rest.now }
        ensures shorter { IfSome result (λ _. length self.new.rest.now < length self.old.rest.now) }
    {
        let mut value = self.term(bound)?;
        while let Some((first, after)) = self.rest.split_first() {
            match first {
                Symbol::Plus => {
                    self.rest = after;
                    let other = self.term(bound)?;
                    value = sum(value, other);
                }
                Symbol::Minus => {
                    self.rest = after;
                    let other = self.term(bound)?;
                    value = difference(value, other);
                }
                _ => return Some(value),
            }
        }
        Some(value)
    }

    #[tactic(auto, using(crate::proofs::Steps::term_step, crate::proofs::Steps::factors_times, crate::proofs::Steps::factors_over, crate::proofs::Steps::factors_other, crate::proofs::Steps::factors_empty))]
    #[cycle(descent)]
    fn term(&mut self, bound: &[Bound]) -> Option<Outcome>
        ensures parsed { seen result self.new.rest.now ≡ parsed (given_by bound.now) term self.old.rest.now }
        ensures shorter { IfSome result (λ _. length self.new.rest.now < length self.old.rest.now) }
    {
        let mut value = self.factor(bound)?;
        while let Some((first, after)) = self.rest.split_first() {
            match first {
                Symbol::Times => {
                    self.rest = after;
                    let other = self.factor(bound)?;
                    value = product(value, other);
                }
                Symbol::Over => {
                    self.rest = after;
                    let other = self.factor(bound)?;
                    value = quotient(value, other);
                }
                _ => return Some(value),
            }
        }
        Some(value)
    }

    #[tactic(auto, using(crate::proofs::Steps::factor_minus, crate::proofs::Steps::factor_other, crate::proofs::Steps::factor_empty))]
    #[cycle(descent)]
    fn factor(&mut self, bound: &[Bound]) -> Option<Outcome>
        ensures parsed { seen result self.new.rest.now ≡ parsed (given_by bound.now) factor self.old.rest.now }
        ensures shorter { IfSome result (λ _. length self.new.rest.now < length self.old.rest.now) }
    {
        let Some((first, after)) = self.rest.split_first() else {
            return self.power(bound);
        };
        match first {
            Symbol::Minus => {
                self.rest = after;
                let value = self.factor(bound)?;
                Some(negative(value))
            }
            _ => self.power(bound),
        }
    }

    #[tactic(auto, using(crate::proofs::Steps::power_step, crate::proofs::Steps::raise_caret, crate::proofs::Steps::raise_other, crate::proofs::Steps::raise_empty))]
    #[cycle(descent)]
    fn power(&mut self, bound: &[Bound]) -> Option<Outcome>
        ensures parsed { seen result self.new.rest.now ≡ parsed (given_by bound.now) power self.old.rest.now }
        ensures shorter { IfSome result (λ _. length self.new.rest.now < length self.old.rest.now) }
    {
        let value = self.atom(bound)?;
        let Some((first, after)) = self.rest.split_first() else {
            return Some(value);
        };
        match first {
            Symbol::Caret => {
                self.rest = after;
                let other = self.factor(bound)?;
                Some(raised(value, other))
            }
            _ => Some(value),
        }
    }

    fn close(&mut self, value: Outcome) -> Option<Outcome>
        ensures closes { seen result self.new.rest.now ≡ close value self.old.rest.now }
        ensures shorter { IfSome result (λ _. length self.new.rest.now < length self.old.rest.now) }
    {
        match self.rest.split_first() {
            Some((Symbol::Close, after)) => {
                self.rest = after;
                Some(value)
            }
            _ => None,
        }
    }

    #[tactic(auto, using(crate::proofs::Steps::atom_open, crate::proofs::Steps::atom_function, crate::proofs::Steps::atom_whole, crate::proofs::Steps::atom_real, crate::proofs::Steps::atom_pi, crate::proofs::Steps::atom_param, crate::proofs::Steps::atom_empty, crate::proofs::Steps::atom_other, crate::proofs::Steps::called_other, crate::proofs::Steps::called_empty))]
    #[cycle(descent)]
    fn atom(&mut self, bound: &[Bound]) -> Option<Outcome>
        ensures parsed { seen result self.new.rest.now ≡ parsed (given_by bound.now) atom self.old.rest.now }
        ensures shorter { IfSome result (λ _. length self.new.rest.now < length self.old.rest.now) }
    {
        let Some((first, after)) = self.rest.split_first() else {
            return None;
        };
        self.rest = after;
        match first {
            Symbol::Whole(n) => Some(number(*n)),
            Symbol::Real => Some(Err(AngleRefusal::NotExact)),
            Symbol::Pi => Some(pi()),
            Symbol::Param(n) => Some(param(bound, *n)),
            Symbol::Open => {
                let value = self.expression(bound)?;
                self.close(value)
            }
            Symbol::Function => {
                let Some((open, inner)) = after.split_first() else {
                    return None;
                };
                match open {
                    Symbol::Open => {
                        self.rest = inner;
                        let value = self.expression(bound)?;
                        self.close(call(value))
                    }
                    _ => None,
                }
            }
            _ => None,
        }
    }
}

/// The value that the symbols spell where the parameters are bound to these, or the refusal that is met first in it. None where they spell no expression.
pub fn value_of(s: &[Symbol], bound: &[Bound]) -> Option<Outcome>
    ensures { result ≡ whole_of (parsed (given_by bound.now) expr s.now) }
{
    let mut reader = Reader { rest: s };
    let value = reader.expression(bound)?;
    match reader.rest.split_first() {
        Some(_) => None,
        None => Some(value),
    }
}
