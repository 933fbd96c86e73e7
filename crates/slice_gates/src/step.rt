//! The step that a gate is.
ghost use Rattle.std.specs.Prelude.{◌≡◌, ◌≢◌, ◌≤◌, ◌<◌, ◌+◌, ◌-◌, ◌^◌, ◌++◌, false, true, All, map, take, length, slice_index_or};
ghost use Rattle.gate_set.specs.Shape.{qubits_of};
ghost use Rattle.slice_gates.specs.Sides.{place_on};
ghost use Rattle.slice_gates.specs.Stepped.{exchanges, HaveControls, IsStepOf};

use crate::side::Side;
use bit_lists::Bits;
use gate_set::{Gate, Kind};
use slice_quad::Step;

/// Whether it exchanges two qubits.
fn is_exchange(kind: Kind) -> bool
    ensures { result ≡ exchanges kind }
{
    match kind {
        Kind::Swap => true,
        Kind::Cswap => true,
        _ => false,
    }
}

/// The variables of the further controls, and of the first of the kind's qubits, as controls.
fn controls_of(side: Side, extra: &[u8], on: &[u8], count: usize, vars: u8) -> Bits
    requires few { vars ≤ 128 }
    requires count { count ≤ length on.now }
    requires small_extra { All (λ q. q < 64) extra.now }
    requires small { All (λ q. q < 64) on.now }
    requires below_extra { All (λ q. place_on side q < vars) extra.now }
    requires below { All (λ q. place_on side q < vars) on.now }
    ensures { HaveControls vars (map (place_on side) (extra.now ++ on.now)) (length extra.now + count) result }
{
    let mut controls = Bits::zeros(vars);
    for i in 0..extra.len() {
        let further = side.place(extra[i]);
        controls.set(further, true);
    }
    for j in 0..count {
        let place = side.place(on[j]);
        controls.set(place, true);
    }
    controls
}

/// The first row of the part of a matrix that acts where all controls are 1.
fn block_start(arity: u8) -> u8
    requires some { 1 ≤ arity }
    requires few { arity ≤ 3 }
    ensures { result + 2 ≡ 2 ^ arity }
{
    match arity {
        1 => 0,
        2 => 2,
        _ => 6,
    }
}

/// The matrix of a gate with one target, on its last qubit, with its others and the further controls as controls.
fn mix_of(gate: &Gate, side: Side, vars: u8) -> Step
    requires few { vars ≤ 128 }
    requires below { All (λ q. place_on side q < vars) (qubits_of gate.now) }
    requires one { exchanges gate.now.kind ≡ false }
    ensures { IsStepOf vars side gate.now result }
{
    let extra = gate.extra();
    let on = gate.on();
    let arity = gate.kind().arity();
    let row = block_start(arity);
    let last = arity as usize - 1;
    Step::Mix {
        controls: controls_of(side, extra, on, last, vars),
        target: side.place(on[last]),
        rows: [
            [side.entry(gate, row, row), side.entry(gate, row, row + 1)],
            [
                side.entry(gate, row + 1, row),
                side.entry(gate, row + 1, row + 1),
            ],
        ],
        half: gate.half_power(),
    }
}

/// An exchange of the gate's last two qubits, with its others and the further controls as controls.
fn exchange_of(gate: &Gate, side: Side, vars: u8) -> Step
    requires few { vars ≤ 128 }
    requires below { All (λ q. place_on side q < vars) (qubits_of gate.now) }
    requires two { exchanges gate.now.kind ≡ true }
    ensures { IsStepOf vars side gate.now result }
{
    let extra = gate.extra();
    let on = gate.on();
    let first = gate.kind().arity() as usize - 2;
    Step::Exchange {
        controls: controls_of(side, extra, on, first, vars),
        first: side.place(on[first]),
        second: side.place(on[first + 1]),
    }
}

/// The step that the gate is on so many variables.
///
/// Where it isn't an exchange, the rows are the last two of its kind's matrix, transposed on columns. It takes no memory.
pub fn step_of(gate: &Gate, side: Side, vars: u8) -> Step
    requires few { vars ≤ 128 }
    requires below { All (λ q. place_on side q < vars) (qubits_of gate.now) }
    ensures { IsStepOf vars side gate.now result }
{
    if is_exchange(gate.kind()) {
        return exchange_of(gate, side, vars);
    }
    mix_of(gate, side, vars)
}
