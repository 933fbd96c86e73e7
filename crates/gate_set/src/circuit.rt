//! Circuits: gates in order on numbered qubits.
ghost use Rattle.std.specs.Prelude.{◌≡◌, ◌≤◌, ◌<◌, ◌++◌, ◌∷◌, [], length, map, false, replicate, IfOk, OnOk, OnErr};
ghost use Rattle.gate_set.specs.Circuits.{IsCircuit, inverse_gate, inverse_gates};
ghost use Rattle.gate_set.specs.Shape.{IsOn};

use crate::gate::Gate;
use bit_lists::OutOfMemory;
use std::alloc::Global;
use std::marker::Model;

/// Gates on at most 64 qubits, at most 1,000,000 of them, in the order in which they act, and which qubits are measured.
#[derive(Drop)]
pub struct Circuit {
    pub qubits: u8,
    pub gates: Vec<Gate>,
    pub measured: Vec<bool>,
}

impl Model for Circuit {
    ghost use Rattle.gate_set.specs.Circuits.{Circuit as Shown, IsCircuit};

    ghost Value = { Shown };

    ghost view = { λ c. record { qubits = c.qubits; gates = c.gates.items; measured = c.measured.items } };

    ghost invariant = { λ c. IsCircuit (record { qubits = c.qubits; gates = c.gates.items; measured = c.measured.items }) };
}

impl Circuit {
    /// A circuit with no gates and nothing measured.
    pub fn new(alloc: Global, qubits: u8) -> Result<Circuit, OutOfMemory>
        requires { qubits ≤ 64 }
        ensures { IfOk result (λ c. c ≡ record { qubits = qubits; gates = []; measured = replicate qubits false }) }
    {
        Ok(Circuit {
            qubits,
            gates: Vec::new(alloc),
            measured: vec![in alloc; false; qubits as usize]?,
        })
    }

    /// The number of its qubits.
    pub fn qubits(&self) -> u8
        ensures value { result ≡ self.now.qubits }
        ensures sound { IsCircuit self.now }
    {
        self.qubits
    }

    /// Its gates, in the order in which they act.
    pub fn gates(&self) -> &[Gate]
        ensures value { result.now ≡ self.now.gates }
        ensures sound { IsCircuit self.now }
    {
        self.gates.as_slice()
    }

    /// Whether each qubit is measured.
    pub fn measured(&self) -> &[bool]
        ensures value { result.now ≡ self.now.measured }
        ensures sound { IsCircuit self.now }
    {
        self.measured.as_slice()
    }

    /// Adds a gate that acts after all others.
    pub fn push(&mut self, g: Gate) -> Result<(), OutOfMemory>
        requires few { length self.old.gates < 1000000 }
        requires within { IsOn self.old.qubits g }
        ensures ok { OnOk result (self.new ≡ record self.old { gates = self.old.gates ++ g ∷ [] }) }
        ensures err { OnErr result (self.new ≡ self.old) }
        ensures sound { IsCircuit self.new }
    {
        self.gates.push(g)?;
        Ok(())
    }

    /// The circuit that undoes this one. It takes no memory.
    pub fn inverse(self) -> Circuit
        ensures value { result ≡ record self { gates = inverse_gates self.gates } }
        ensures sound { IsCircuit result }
    {
        let Circuit {
            qubits,
            mut gates,
            measured,
        } = self;
        invert_all(&mut gates);
        gates.reverse();
        Circuit {
            qubits,
            gates,
            measured,
        }
    }
}

// Each gate becomes its inverse.
fn invert_all(gates: &mut [Gate])
    ensures { gates.new ≡ map inverse_gate gates.old }
{
    for gate in gates.iter_mut() {
        gate.invert();
    }
}
