//! The gates of a text by name.
ghost use Rattle.std.specs.Prelude.{◌≡◌, ◌≢◌, ◌≤◌, ◌<◌, ◌+◌, ◌++◌, ◌∷◌, [], IfOk, IfSome, OnOk, All, AllPairs, length, map, option_map};
ghost use Rattle.std.specs.Str.{bytes_eq};
ghost use Rattle.std.specs.Map.{lookup};
ghost use Rattle.qasm_lex.specs.Angles.{IsExpression, given_by};
ghost use Rattle.qasm_lex.specs.Expressions.{Tree};
ghost use Rattle.qasm_gates.specs.Gates.{gate_in, placed};
ghost use Rattle.qasm_gates.specs.Bodies.{defined};
ghost use Rattle.qasm_gates.specs.Private.Codes.{IsSmall};
ghost use Rattle.qasm_gates.specs.Private.Counts.{tally, capped};
ghost use Rattle.qasm_gates.specs.Private.Proper.{AreQubits, IsMeant, done_in};
ghost use Rattle.qasm_gates.specs.Private.Tables.{IsCounted, AreBelow, depth_in};
ghost use Rattle.qasm_gates.specs.Private.Views.{View, view_of, IsGates, Shows, callee_gate, IsKnown};

use crate::builtin::builtin_named;
use crate::hashing::KeyedNames;
use crate::judging::Judged;
use crate::table::{Callee, Table};
use bit_lists::OutOfMemory;
use gate_set::Gate;
use indexmap::IndexMap;
use qasm_lex::{Bound, Symbol};
use std::alloc::Global;

/// The gates that are built in and those that a text defines, by name, and the body of the next definition. A look-up takes constant time on
/// average, by a hash whose key a text can't know in advance.
#[derive(Drop)]
pub struct Gates<'a> {
    pub names: IndexMap<&'a [u8], u32, KeyedNames>,
    pub table: Table,
}

impl<'a> Gates<'a> {
    /// None is defined. Names are hashed so.
    pub fn new(alloc: Global, names: KeyedNames) -> Gates<'a>
        ensures { Shows result (record { definitions = []; body = []; angles = []; on = [] }) }
    {
        Gates {
            names: IndexMap::with_hasher(alloc, names),
            table: Table::new(alloc),
        }
    }

    // The number of a gate that is defined.
    fn number(&self, name: &[u8]) -> Option<u32>
        ensures { result ≡ lookup (λ k. bytes_eq name.now k.now) self.now.names.entries }
    {
        self.names.get(name).copied()
    }

    /// The gate of a name: one that is built in, or one that is defined.
    pub fn find(&self, name: &[u8]) -> Option<Callee>
        requires { IsGates self.now }
        ensures gate { option_map (callee_gate self.now) result ≡ gate_in (view_of self.now).definitions name.now }
        ensures known { IfSome result (IsKnown self.now) }
    {
        match builtin_named(name) {
            Some(built) => Some(Callee::Builtin(built)),
            None => match self.number(name) {
                Some(number) => Some(Callee::Defined(number)),
                None => None,
            },
        }
    }

    /// How many arguments it has.
    pub fn arity(&self, callee: Callee) -> u32
        requires gates { IsGates self.now }
        requires known { IsKnown self.now callee }
        ensures { result ≡ (callee_gate self.now callee).arity }
    {
        self.table.arity(callee)
    }

    /// How many angles it has.
    pub fn angle_count(&self, callee: Callee) -> u32
        requires gates { IsGates self.now }
        requires known { IsKnown self.now callee }
        ensures { result ≡ (callee_gate self.now callee).angles }
    {
        self.table.angle_count(callee)
    }

    /// How deep it calls others, and how many items it has, up to 4,000,001.
    pub fn counts(&self, callee: Callee) -> (u32, u32)
        requires gates { IsGates self.now }
        requires known { IsKnown self.now callee }
        ensures { IsCounted result.0 result.1 (callee_gate self.now callee) }
    {
        self.table.counts(callee)
    }

    /// How deep the calls of the body are.
    pub fn depth(&self) -> u32
        requires { IsGates self.now }
        ensures value { result ≡ depth_in (view_of self.now).body }
        ensures shallow { result ≤ 32 }
    {
        self.table.open.depth
    }

    /// One argument more of the next call of the body, by its number.
    pub fn add_argument(&mut self, number: u32) -> Result<(), OutOfMemory>
        requires { IsGates self.old }
        ensures { OnOk result (Shows self.new (record (view_of self.old) { on = (view_of self.old).on ++ number ∷ [] })) }
    {
        self.table.add_argument(number)
    }

    /// One angle more of it: the symbols of an expression.
    pub fn add_angle(&mut self, symbols: &[Symbol]) -> Result<(), OutOfMemory>
        requires gates { IsGates self.old }
        requires small { All IsSmall symbols.now }
        requires short { length symbols.now ≤ 64 }
        requires spelled { (tree : Tree) × IsExpression symbols.now tree }
        ensures { OnOk result ((tree : Tree) → IsExpression symbols.now tree → Shows self.new (record (view_of self.old) { angles = (view_of self.old).angles ++ tree ∷ [] })) }
    {
        self.table.add_angle(symbols)
    }

    /// It calls this gate.
    pub fn add_call(&mut self, callee: Callee) -> Result<(), OutOfMemory>
        requires gates { IsGates self.old }
        requires known { IsKnown self.old callee }
        requires arguments { length (view_of self.old).on ≡ (callee_gate self.old callee).arity }
        requires angles { length (view_of self.old).angles ≡ (callee_gate self.old callee).angles }
        requires different { AllPairs (λ p q. p ≢ q) (view_of self.old).on }
        ensures { OnOk result (Shows self.new (record {
          definitions = (view_of self.old).definitions;
          body = (view_of self.old).body ++ record { called = callee_gate self.old callee; angles = (view_of self.old).angles; on = (view_of self.old).on } ∷ [];
          angles = [];
          on = [];
        })) }
    {
        self.table.add_line(callee)
    }

    /// The body defines a gate of this name, with so many arguments and parameters.
    pub fn define(&mut self, name: &'a [u8], arity: u32, params: u32) -> Result<(), OutOfMemory>
        requires gates { IsGates self.old }
        requires new { gate_in (view_of self.old).definitions name.now ≡ None }
        requires below { All (λ c. AreBelow arity c.on) (view_of self.old).body }
        requires shallow { 1 + depth_in (view_of self.old).body ≤ 32 }
        ensures { OnOk result (Shows self.new (record {
          definitions = (view_of self.old).definitions ++ (name.now, defined params arity (view_of self.old).body) ∷ [];
          body = [];
          angles = [];
          on = [];
        })) }
    {
        let number = self.table.count()?;
        let _ = self.names.insert(name, number)?;
        self.table.define(arity, params)
    }

    /// What a call of a gate comes to, where its angles have these values. The work is linear in the items of the gate. It calls itself as deep
    /// as gates call others.
    pub fn judge(
        &self,
        alloc: Global,
        callee: Callee,
        bound: &[Bound],
    ) -> Result<Judged, OutOfMemory>
        requires gates { IsGates self.now }
        requires known { IsKnown self.now callee }
        requires counted { length bound.now ≡ (callee_gate self.now callee).angles }
        ensures { IfOk result (λ judged. judged ≡ capped (tally ((callee_gate self.now callee).means (given_by bound.now)))) }
    {
        self.table.judge(alloc, callee, bound)
    }

    /// Adds the gates of a call of a gate on different qubits, where its angles have these values and none is refused. The work is linear in the
    /// items of the gate and its gates. It calls itself as deep as gates call others.
    pub fn expand(
        &self,
        alloc: Global,
        callee: Callee,
        bound: &[Bound],
        on: &[u8],
        gates: &mut Vec<Gate>,
    ) -> Result<(), OutOfMemory>
        requires gates { IsGates self.now }
        requires known { IsKnown self.now callee }
        requires counted { length bound.now ≡ (callee_gate self.now callee).angles }
        requires qubits { AreQubits (callee_gate self.now callee).arity on.now }
        requires meant { IsMeant ((callee_gate self.now callee).means (given_by bound.now)) }
        ensures { OnOk result (gates.new.items ≡ gates.old.items ++ map (placed on.now) (done_in ((callee_gate self.now callee).means (given_by bound.now)))) }
    {
        self.table.expand(alloc, callee, bound, on, gates)
    }
}
