//! Gates: a kind, the qubits that it is on, and further controls.
ghost use Rattle.std.specs.Prelude.{◌≡◌, ◌≤◌, ◌<◌, ◌^◌, ◌++◌, [], length};
ghost use Rattle.gate_set.specs.Matrix.{arity_of, half_power_of, entry_of, beside, block_start, IsReduced, IsPower};
ghost use Rattle.gate_set.specs.Shape.{IsPlaced, arity_with, gate_entry};
ghost use Rattle.gate_set.specs.Circuits.{inverse_gate};

use crate::controls::Controls;
use crate::entry::Entry;
use crate::kind::Kind;
use crate::qubits::Qubits;
use std::alloc::Global;
use std::marker::Model;

/// A gate on as many different qubits below 64 as its kind asks for, with at most eight further controls among the others. Row and
/// column of its matrix have the bits of the further controls first, and then those of the kind's qubits; the first bit is the highest.
#[derive(Debug, PartialEq, Eq, Drop)]
pub struct Gate {
    pub kind: Kind,
    pub on: Qubits,
    pub extra: Controls,
}

impl Model for Gate {
    ghost use Rattle.gate_set.specs.Shape.{Placement, IsPlaced};

    ghost Value = { Placement };

    ghost view = { λ g. record { kind = g.kind; on = g.on; extra = g.extra } };

    ghost invariant = { λ g. IsPlaced g.kind g.extra g.on };

    ghost inverse = { λ v. record { kind = v.kind; on = v.on; extra = v.extra } };
}

// The number of rows of a matrix on so many qubits.
fn rows_of(qubits: u8) -> u16
    requires { qubits ≤ 11 }
    ensures { result ≡ 2 ^ qubits }
{
    1 << qubits
}

impl Gate {
    /// It takes no memory.
    pub fn new(alloc: Global, kind: Kind, on: &[u8]) -> Gate
        requires { IsPlaced kind [] on.now }
        ensures value { result ≡ record { kind = kind; on = on.now; extra = [] } }
        ensures sound { IsPlaced result.kind result.extra result.on }
    {
        Gate {
            kind,
            on: Qubits::new(alloc, on),
            extra: Controls::new(alloc, &[]),
        }
    }

    /// The same with further controls. It takes no memory.
    pub fn controlled(alloc: Global, extra: &[u8], kind: Kind, on: &[u8]) -> Gate
        requires { IsPlaced kind extra.now on.now }
        ensures value { result ≡ record { kind = kind; on = on.now; extra = extra.now } }
        ensures sound { IsPlaced result.kind result.extra result.on }
    {
        Gate {
            kind,
            on: Qubits::new(alloc, on),
            extra: Controls::new(alloc, extra),
        }
    }

    /// The same gate. It takes no memory.
    pub fn copied(&self, alloc: Global) -> Gate
        ensures value { result ≡ self.now }
        ensures sound { IsPlaced result.kind result.extra result.on }
    {
        Gate::controlled(alloc, self.extra.as_slice(), self.kind, self.on.as_slice())
    }

    pub fn kind(&self) -> Kind
        ensures kind { result ≡ self.now.kind }
        ensures sound { IsPlaced self.now.kind self.now.extra self.now.on }
    {
        self.kind
    }

    /// Its kind's qubits.
    pub fn on(&self) -> &[u8]
        ensures on { result.now ≡ self.now.on }
        ensures sound { IsPlaced self.now.kind self.now.extra self.now.on }
    {
        self.on.as_slice()
    }

    /// Its further controls.
    pub fn extra(&self) -> &[u8]
        ensures extra { result.now ≡ self.now.extra }
        ensures sound { IsPlaced self.now.kind self.now.extra self.now.on }
    {
        self.extra.as_slice()
    }

    /// The number of rows of its kind's matrix, and of columns.
    pub fn side(&self) -> u8
        ensures value { result ≡ 2 ^ arity_of self.now.kind }
        ensures sound { IsPlaced self.now.kind self.now.extra self.now.on }
    {
        self.kind.row().side()
    }

    /// How many factors 1/√2 its matrix has beside the entries.
    pub fn half_power(&self) -> u8
        ensures value { result ≡ half_power_of self.now.kind }
        ensures sound { IsPlaced self.now.kind self.now.extra self.now.on }
    {
        self.kind.row().half_power
    }

    /// The entry of its kind's matrix, without the factors 1/√2: that of its own where all further controls are 1.
    pub fn block_entry(&self, row: u8, col: u8) -> Entry
        requires row { row < 2 ^ arity_of self.now.kind }
        requires col { col < 2 ^ arity_of self.now.kind }
        ensures value { result ≡ entry_of self.now.kind row col }
        ensures power { IsPower result }
        ensures sound { IsPlaced self.now.kind self.now.extra self.now.on }
    {
        self.kind.row().entry(row, col)
    }

    /// What stands on the diagonal where a further control is 0, without the factors 1/√2.
    pub fn beside(&self) -> Entry
        ensures value { result ≡ beside self.now.kind }
        ensures sound { IsPlaced self.now.kind self.now.extra self.now.on }
    {
        if self.kind.row().half_power == 0 {
            Entry::Omega(0)
        } else {
            Entry::Root2
        }
    }

    /// The entry of its matrix, without the factors 1/√2.
    pub fn entry(&self, row: u16, col: u16) -> Entry
        requires row { row < 2 ^ arity_with self.now }
        requires col { col < 2 ^ arity_with self.now }
        ensures value { result ≡ gate_entry self.now row col }
        ensures reduced { IsReduced result }
        ensures sound { IsPlaced self.now.kind self.now.extra self.now.on }
    {
        let first = self.block_start();
        if row >= first && col >= first {
            return self.block_entry((row - first) as u8, (col - first) as u8);
        }
        if row == col {
            return self.beside();
        }
        Entry::Zero
    }

    // The first row and column where all further controls are 1.
    fn block_start(&self) -> u16
        ensures value { result ≡ block_start (length self.now.extra) self.now.kind }
        ensures sound { IsPlaced self.now.kind self.now.extra self.now.on }
    {
        let arity = self.kind.row().arity();
        rows_of(self.extra.len() + arity) - rows_of(arity)
    }

    /// The gate with the inverse matrix, on the same qubits. It takes no memory.
    pub fn inverse(mut self) -> Gate
        ensures value { result ≡ inverse_gate self }
        ensures sound { IsPlaced result.kind result.extra result.on }
    {
        self.invert();
        self
    }

    /// It becomes its inverse.
    pub fn invert(&mut self)
        ensures value { self.new ≡ inverse_gate self.old }
        ensures sound { IsPlaced self.new.kind self.new.extra self.new.on }
    {
        self.kind = self.kind.row().inverse;
    }
}
