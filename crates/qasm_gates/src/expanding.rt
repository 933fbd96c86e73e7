//! The gates of calls.
ghost use Rattle.std.specs.Prelude.{◌≡◌, ◌<◌, ◌++◌, ℕ, List, Some, OnOk, IfOk, length, map, get_or, replicate};
ghost use Rattle.gate_set.specs.Shape.{IsPlaced};
ghost use Rattle.qasm_lex.specs.Angles.{given_by};
ghost use Rattle.qasm_gates.specs.Gates.{one, placed, builtin, builtin_gate, arity, angle_count};
ghost use Rattle.qasm_gates.specs.Bodies.{call_means};
ghost use Rattle.qasm_gates.specs.Private.Seen.{seen_builtin};
ghost use Rattle.qasm_gates.specs.Private.Proper.{AreQubits, IsMeant, done_in};
ghost use Rattle.qasm_gates.specs.Private.Tables.{store_of, callee_angles, callee_arity, on_at, gate_of, line_at, gates_of, nothing, no_row, AreBelow, IsCallee, IsLine, IsTable};

use crate::builtin::Builtin;
use crate::judging::body_of;
use crate::table::{Callee, Line, Table};
use bit_lists::OutOfMemory;
use gate_set::{Gate, Kind};
use qasm_lex::Bound;
use std::alloc::Global;

/// Adds gates of one kind.
#[tactic(auto, using(crate::proofs::Placed::replicate_next, crate::proofs::Placed::placed_same))]
pub fn add_gates(
    alloc: Global,
    kind: Kind,
    times: u8,
    extra: &[u8],
    on: &[u8],
    gates: &mut Vec<Gate>,
) -> Result<(), OutOfMemory>
    requires { IsPlaced kind extra.now on.now }
    ensures { OnOk result (gates.new.items ≡ gates.old.items ++ map (placed (extra.now ++ on.now)) (replicate times (one (length extra.now) kind))) }
{
    for _step in 0..times {
        gates.push(Gate::controlled(alloc, extra, kind, on))?;
    }
    Ok(())
}

// Adds the gates of a call of a built-in gate.
fn expand_builtin(
    alloc: Global,
    built: Builtin,
    bound: &[Bound],
    on: &[u8],
    gates: &mut Vec<Gate>,
) -> Result<(), OutOfMemory>
    requires named { (name : List ℕ) × (builtin name ≡ Some (seen_builtin built)) }
    requires counted { length bound.now ≡ angle_count (seen_builtin built) }
    requires qubits { AreQubits (arity (seen_builtin built)) on.now }
    ensures { OnOk result (gates.new.items ≡ gates.old.items ++ map (placed on.now) (done_in ((builtin_gate (seen_builtin built)).means (given_by bound.now)))) }
{
    match body_of(built.base, bound) {
        Ok(Some((kind, times))) => {
            let (extra, rest) = on.split_at(built.controls as usize);
            add_gates(alloc, kind, times, extra, rest, gates)
        }
        Ok(None) => Ok(()),
        Err(_) => Ok(()),
    }
}

impl Table {
    // The numbers of the arguments of a call in a body.
    fn on_of(&self, line: Line) -> &[u32]
        requires { IsLine (store_of self.now) (length self.now.rows.items) line }
        ensures { result.now ≡ on_at (store_of self.now) line }
    {
        let first = line.on as usize;
        &self.on[first..first + self.arity(line.callee) as usize]
    }

    // The qubits of a call in a body, by those of the gate.
    fn qubits_of(&self, alloc: Global, line: Line, on: &[u8]) -> Result<Vec<u8>, OutOfMemory>
        requires line { IsLine (store_of self.now) (length self.now.rows.items) line }
        requires below { AreBelow (length on.now) (on_at (store_of self.now) line) }
        ensures { IfOk result (λ qubits. qubits.items ≡ map (λ k. get_or on.now k 0) (on_at (store_of self.now) line)) }
    {
        let mut out = Vec::new(alloc);
        for number in self.on_of(line) {
            out.push(on[*number as usize])?;
        }
        Ok(out)
    }

    // Adds the gates of a call in a body.
    #[cycle(expanding)]
    fn expand_line(
        &self,
        alloc: Global,
        line: Line,
        bound: &[Bound],
        on: &[u8],
        gates: &mut Vec<Gate>,
    ) -> Result<(), OutOfMemory>
        requires table { IsTable self.now }
        requires line { IsLine (store_of self.now) (length self.now.rows.items) line }
        requires below { AreBelow (length on.now) (on_at (store_of self.now) line) }
        requires qubits { AreQubits (length on.now) on.now }
        requires meant { IsMeant (call_means (given_by bound.now) (line_at (store_of self.now) (gates_of (store_of self.now)) line)) }
        ensures { OnOk result (gates.new.items ≡ gates.old.items ++ map (placed on.now) (done_in (call_means (given_by bound.now) (line_at (store_of self.now) (gates_of (store_of self.now)) line)))) }
    {
        match self.values_of(alloc, line, bound)? {
            Err(_) => Ok(()),
            Ok(values) => {
                let qubits = self.qubits_of(alloc, line, on)?;
                self.expand(alloc, line.callee, &values, &qubits, gates)
            }
        }
    }

    // Adds the gates of a call of a defined gate.
    #[cycle(expanding)]
    fn expand_row(
        &self,
        alloc: Global,
        gate: u32,
        bound: &[Bound],
        on: &[u8],
        gates: &mut Vec<Gate>,
    ) -> Result<(), OutOfMemory>
        requires table { IsTable self.now }
        requires known { gate < length self.now.rows.items }
        requires qubits { AreQubits (get_or self.now.rows.items gate no_row).arity on.now }
        requires meant { IsMeant ((get_or (gates_of (store_of self.now)) gate nothing).means (given_by bound.now)) }
        ensures { OnOk result (gates.new.items ≡ gates.old.items ++ map (placed on.now) (done_in ((get_or (gates_of (store_of self.now)) gate nothing).means (given_by bound.now)))) }
    {
        let row = self.row(gate);
        let mut rest = self.lines_of(row);
        while let Some((line, after)) = rest.split_first() {
            self.expand_line(alloc, *line, bound, on, gates)?;
            rest = after;
        }
        Ok(())
    }

    /// Adds the gates of a call of a gate on different qubits, where its angles have these values and none is refused. The work is linear in the
    /// items of the gate and its gates. It calls itself as deep as gates call others.
    #[cycle(expanding)]
    pub fn expand(
        &self,
        alloc: Global,
        callee: Callee,
        bound: &[Bound],
        on: &[u8],
        gates: &mut Vec<Gate>,
    ) -> Result<(), OutOfMemory>
        requires table { IsTable self.now }
        requires known { IsCallee (length self.now.rows.items) callee }
        requires counted { length bound.now ≡ callee_angles self.now.rows.items callee }
        requires qubits { AreQubits (callee_arity self.now.rows.items callee) on.now }
        requires meant { IsMeant ((gate_of (gates_of (store_of self.now)) callee).means (given_by bound.now)) }
        ensures { OnOk result (gates.new.items ≡ gates.old.items ++ map (placed on.now) (done_in ((gate_of (gates_of (store_of self.now)) callee).means (given_by bound.now)))) }
    {
        match callee {
            Callee::Builtin(built) => expand_builtin(alloc, built, bound, on, gates),
            Callee::Defined(gate) => self.expand_row(alloc, gate, bound, on, gates),
        }
    }
}
