//! The table of defined gates.
ghost use Rattle.std.specs.Prelude.{◌≡◌, ◌≢◌, ◌≤◌, ◌<◌, ◌+◌, ◌++◌, ◌∷◌, [], ℕ, IfOk, OnOk, All, AllPairs, length, map, min, get_or, slice_get, Some};
ghost use Rattle.qasm_lex.specs.Angles.{IsExpression};
ghost use Rattle.qasm_lex.specs.Expressions.{Tree};
ghost use Rattle.qasm_gates.specs.Gates.{arity, angle_count};
ghost use Rattle.qasm_gates.specs.Bodies.{defined};
ghost use Rattle.qasm_gates.specs.Private.Seen.{seen_builtin};
ghost use Rattle.qasm_gates.specs.Private.Codes.{IsSmall};
ghost use Rattle.qasm_gates.specs.Private.Tables.{store_of, no_row, callee_arity, callee_angles, gate_of, gates_of, IsCallee, IsCounted, AreBelow, depth_in, items_in, many_items, shown, Shown, IsTable, Becomes};

use crate::builtin::Builtin;
use crate::codes::{Code, add_all};
use bit_lists::OutOfMemory;
use qasm_lex::Symbol;
use std::alloc::Global;

/// What a call calls: a built-in gate, or the defined gate of this number.
#[derive(Clone, Copy)]
pub enum Callee {
    Builtin(Builtin),
    Defined(u32),
}

/// An angle in a body: where its symbols and their numbers begin.
#[derive(Clone, Copy)]
pub struct Angle {
    pub code: u32,
    pub number: u32,
}

/// A call in a body: where its arguments and its angles begin. What is called has so many.
#[derive(Clone, Copy)]
pub struct Line {
    pub callee: Callee,
    pub on: u32,
    pub angles: u32,
}

/// A defined gate: how many arguments and parameters it has, how deep it calls others, how many items it has, up to 4,000,001, and its lines.
#[derive(Clone, Copy)]
pub struct Row {
    pub arity: u32,
    pub params: u32,
    pub depth: u32,
    pub items: u32,
    pub from: u32,
    pub to: u32,
}

/// The body that is being read: where its lines begin, and the arguments and the angles of the next one; how deep the lines so far call others,
/// and how many items they have, up to 4,000,001.
#[derive(Clone, Copy)]
pub struct Open {
    pub line: u32,
    pub on: u32,
    pub angles: u32,
    pub depth: u32,
    pub items: u32,
}

/// The defined gates in the order of their definitions, and a body that is being read.
#[derive(Drop)]
pub struct Table {
    pub rows: Vec<Row>,
    pub lines: Vec<Line>,
    pub on: Vec<u32>,
    pub angles: Vec<Angle>,
    pub codes: Vec<Code>,
    pub numbers: Vec<i64>,
    pub open: Open,
}

/// More items than all calls may have.
const MANY_ITEMS: u32 = 4000001;

// A length that fits.
fn narrow(length: usize) -> Result<u32, OutOfMemory>
    ensures { IfOk result (λ n. n ≡ length) }
{
    if length <= u32::MAX as usize {
        Ok(length as u32)
    } else {
        Err(OutOfMemory)
    }
}

impl Table {
    /// No gates.
    pub fn new(alloc: Global) -> Table
        ensures { Becomes result (record { gates = []; body = []; angles = []; on = [] }) }
    {
        Table {
            rows: Vec::new(alloc),
            lines: Vec::new(alloc),
            on: Vec::new(alloc),
            angles: Vec::new(alloc),
            codes: Vec::new(alloc),
            numbers: Vec::new(alloc),
            open: Open {
                line: 0,
                on: 0,
                angles: 0,
                depth: 0,
                items: 0,
            },
        }
    }

    /// How many gates are defined.
    pub fn count(&self) -> Result<u32, OutOfMemory>
        ensures { IfOk result (λ n. n ≡ length self.now.rows.items) }
    {
        narrow(self.rows.len())
    }

    /// The row of a defined gate.
    pub fn row(&self, gate: u32) -> Row
        requires { gate < length self.now.rows.items }
        ensures row { slice_get self.now.rows.items gate ≡ Some result }
        ensures value { result ≡ get_or self.now.rows.items gate no_row }
    {
        self.rows[gate as usize]
    }

    /// How many arguments it has.
    pub fn arity(&self, callee: Callee) -> u32
        requires { IsCallee (length self.now.rows.items) callee }
        ensures { result ≡ callee_arity self.now.rows.items callee }
    {
        match callee {
            Callee::Builtin(built) => u32::from(built.arity()),
            Callee::Defined(gate) => self.row(gate).arity,
        }
    }

    /// How many angles it has.
    pub fn angle_count(&self, callee: Callee) -> u32
        requires { IsCallee (length self.now.rows.items) callee }
        ensures { result ≡ callee_angles self.now.rows.items callee }
    {
        match callee {
            Callee::Builtin(built) => u32::from(built.angle_count()),
            Callee::Defined(gate) => self.row(gate).params,
        }
    }

    /// How deep it calls others, and how many items it has, up to 4,000,001.
    pub fn counts(&self, callee: Callee) -> (u32, u32)
        requires table { IsTable self.now }
        requires known { IsCallee (length self.now.rows.items) callee }
        ensures { IsCounted result.0 result.1 (gate_of (shown self.now).gates callee) }
    {
        match callee {
            Callee::Builtin(_) => (0, 0),
            Callee::Defined(gate) => {
                let row = self.row(gate);
                (row.depth, row.items)
            }
        }
    }

    /// One argument more of the call that is being read.
    pub fn add_argument(&mut self, number: u32) -> Result<(), OutOfMemory>
        requires { IsTable self.old }
        ensures { OnOk result (Becomes self.new (record (shown self.old) { on = (shown self.old).on ++ number ∷ [] })) }
    {
        self.on.push(number)?;
        Ok(())
    }

    /// One angle more of it: the symbols of an expression.
    pub fn add_angle(&mut self, symbols: &[Symbol]) -> Result<(), OutOfMemory>
        requires table { IsTable self.old }
        requires small { All IsSmall symbols.now }
        requires short { length symbols.now ≤ 64 }
        requires spelled { (tree : Tree) × IsExpression symbols.now tree }
        ensures { OnOk result ((tree : Tree) → IsExpression symbols.now tree → Becomes self.new (record (shown self.old) { angles = (shown self.old).angles ++ tree ∷ [] })) }
    {
        let code = narrow(self.codes.len())?;
        let number = narrow(self.numbers.len())?;
        add_all(&mut self.codes, &mut self.numbers, symbols)?;
        self.codes.push(Code::End)?;
        self.angles.push(Angle { code, number })?;
        Ok(())
    }

    /// The call is of this gate, and belongs to the body that is being read.
    pub fn add_line(&mut self, callee: Callee) -> Result<(), OutOfMemory>
        requires table { IsTable self.old }
        requires known { IsCallee (length self.old.rows.items) callee }
        requires arguments { length (shown self.old).on ≡ callee_arity self.old.rows.items callee }
        requires angles { length (shown self.old).angles ≡ callee_angles self.old.rows.items callee }
        requires different { AllPairs (λ p q. p ≢ q) (shown self.old).on }
        ensures { OnOk result (Becomes self.new (record {
          gates = (shown self.old).gates;
          body = (shown self.old).body ++ record { called = gate_of (shown self.old).gates callee; angles = (shown self.old).angles; on = (shown self.old).on } ∷ [];
          angles = [];
          on = [];
        })) }
    {
        let (depth, items) = self.counts(callee);
        let on = narrow(self.on.len())?;
        let angles = narrow(self.angles.len())?;
        self.lines.push(Line {
            callee,
            on: self.open.on,
            angles: self.open.angles,
        })?;
        self.open = Open {
            line: self.open.line,
            on,
            angles,
            depth: self.open.depth.max(depth),
            items: (self.open.items + 1 + items).min(MANY_ITEMS),
        };
        Ok(())
    }

    /// The body that was read defines a gate with so many arguments and parameters.
    pub fn define(&mut self, arity: u32, params: u32) -> Result<(), OutOfMemory>
        requires table { IsTable self.old }
        requires below { All (λ c. AreBelow arity c.on) (shown self.old).body }
        requires shallow { 1 + depth_in (shown self.old).body ≤ 32 }
        ensures { OnOk result (Becomes self.new (record {
          gates = (shown self.old).gates ++ defined params arity (shown self.old).body ∷ [];
          body = [];
          angles = [];
          on = [];
        })) }
    {
        let to = narrow(self.lines.len())?;
        let on = narrow(self.on.len())?;
        let angles = narrow(self.angles.len())?;
        self.rows.push(Row {
            arity,
            params,
            depth: self.open.depth + 1,
            items: self.open.items,
            from: self.open.line,
            to,
        })?;
        self.open = Open {
            line: to,
            on,
            angles,
            depth: 0,
            items: 0,
        };
        Ok(())
    }
}
