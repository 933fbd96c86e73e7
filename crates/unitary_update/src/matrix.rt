//! A matrix as integers over decision diagrams.
ghost use Rattle.std.specs.Prelude.{◌≡◌, ◌*◌, ◌<◌, ◌≤◌, ◌++◌, length, IfOk, IfErr, OnOk};

use crate::accepted::{MatrixStep, sided};
use crate::weaving::interleaved;
use amp_dense::{Rules, Stop};
use bit_lists::{Bits, Order};
use diagram_ops::Diagrams;
use gate_set::Gate;
use node_store::StoreStop;
use ring_omega::Quad;
use slice_quad::{SliceQuad, entry, exponent, identity};
use std::alloc::Global;
use std::marker::Model;
use step_upkeep::accept;

/// A matrix on at most 64 qubits, as integers over decision diagrams: of qubit q, variable 2q is the row's and
/// variable 2q + 1 the column's.
///
/// A step takes the time of its connectives: what it costs depends on how many functions the bits of the matrix
/// share, not on the number of entries. Nodes that are no longer wanted are freed where the rules say so, and where a
/// step wants their place; where the rules say so, the variables are sifted.
#[derive(Drop)]
pub struct SlicedMatrix {
    qubits: u8,
    rules: Rules,
    steps: Vec<MatrixStep>,
    diagrams: Diagrams,
    quad: SliceQuad,
}

impl Model for SlicedMatrix {
    ghost use Rattle.std.specs.Prelude.{map};
    ghost use Rattle.unitary_update.specs.Kept.{State, IsKept, step_in};

    ghost Value = { State };

    ghost view = { λ m. record { qubits = m.qubits; rules = m.rules; steps = map step_in m.steps.items; diagrams = m.diagrams; quad = m.quad } };

    ghost invariant = { λ m. IsKept (record { qubits = m.qubits; rules = m.rules; steps = map step_in m.steps.items; diagrams = m.diagrams; quad = m.quad }) };
}

impl SlicedMatrix {
    ghost use Rattle.gate_set.specs.Shape.{IsOn};
    ghost use Rattle.amp_dense.specs.Chains.{MayStop};
    ghost use Rattle.slice_quad.specs.RowsColumns.{KeepsRowEqualsColumn};
    ghost use Rattle.slice_quad.specs.Vectors.{Stands};
    ghost use Rattle.comparison.specs.Products.{gate_of, work_matrix};
    ghost use Rattle.comparison.specs.Products.Step.{left, right};
    ghost use Rattle.unitary_update.specs.Kept.{standing_of, step_in, begun, Steps, Starts, ShowsMatrix};

    /// The identity, with no step accepted yet.
    ///
    /// `Nodes` comes with the gate 0 exactly where three nodes a qubit are more than the rules let it have.
    pub fn identity(alloc: Global, qubits: u8, rules: &Rules) -> Result<SlicedMatrix, Stop>
        requires { qubits ≤ 64 }
        ensures begins { IfOk result (λ m. standing_of m ≡ begun qubits rules.now) }
        ensures room { OnOk result (3 * qubits ≤ rules.now.nodes) }
        ensures stops { IfErr result (MayStop (Starts rules.now qubits)) }
    {
        let _width = rules.width();
        let mut diagrams = Diagrams::new(alloc, 2 * qubits, rules.nodes, rules.cache)?;
        match identity(alloc, &mut diagrams, qubits) {
            Ok(quad) => Ok(SlicedMatrix {
                qubits,
                rules: *rules,
                steps: Vec::new(alloc),
                diagrams,
                quad,
            }),
            Err(StoreStop::Full { held }) => Err(Stop::Nodes {
                gate: 0,
                order: diagrams.store().order(),
                held,
            }),
            Err(StoreStop::OutOfMemory) => Err(Stop::OutOfMemory),
        }
    }

    /// Multiplies by the gate's matrix from the left: the matrix M becomes G·M, halved. Where a sift is due, all variables are sifted in turn
    /// first, and the order that this leads to is in force from then on; where memory is wanted at that, any order may be.
    ///
    /// `Width` comes only where a coefficient of the product is wider than the rules let it be, and `Nodes` only where, in the order in force,
    /// the step's work functions alone need at least as many nodes as the rules let it have. A stop numbers this step among the left and right ones
    /// together, from 1, and leaves the matrix as it was, but for the order.
    pub fn left(&mut self, alloc: Global, gate: &Gate) -> Result<(), Stop>
        requires within { IsOn self.old.qubits gate.now }
        requires few { length self.old.steps < 2000000 }
        ensures { Steps self.old (left gate.now) result self.new }
    {
        self.multiply(alloc, MatrixStep::Left(gate.copied(alloc)))
    }

    /// Multiplies by the gate's matrix from the right: the matrix M becomes M·G, halved. Stops are those of `left`.
    pub fn right(&mut self, alloc: Global, gate: &Gate) -> Result<(), Stop>
        requires within { IsOn self.old.qubits gate.now }
        requires few { length self.old.steps < 2000000 }
        ensures { Steps self.old (right gate.now) result self.new }
    {
        self.multiply(alloc, MatrixStep::Right(gate.copied(alloc)))
    }

    /// Makes a step.
    fn multiply(&mut self, alloc: Global, factor: MatrixStep) -> Result<(), Stop>
        requires within { IsOn self.old.qubits (gate_of (step_in factor)) }
        requires few { length self.old.steps < 2000000 }
        ensures { Steps self.old (step_in factor) result self.new }
    {
        let accepted = self.accepted();
        self.steps.reserve(1)?;
        let s = sided(&factor, self.qubits);
        accept(
            alloc,
            &mut self.diagrams,
            &mut self.quad,
            &self.rules,
            &s,
            accepted,
        )?;
        self.steps.push_reserved(factor);
        Ok(())
    }

    /// The coefficients of the entry in this row and column.
    pub fn entry(&self, row: &Bits, column: &Bits) -> Quad
        requires row { length row.now ≡ self.now.qubits }
        requires column { length column.now ≡ self.now.qubits }
        ensures { result ≡ (work_matrix self.now.qubits self.now.steps).entries (row.now ++ column.now) }
    {
        let _held = self.diagrams.cached();
        let at = interleaved(row, column);
        entry(&self.diagrams, &self.quad, &at)
    }

    /// The power of √2 that all entries stand over.
    pub fn exponent(&self) -> u32
        ensures { result ≡ (work_matrix self.now.qubits self.now.steps).exponent }
    {
        let _held = self.diagrams.cached();
        exponent(&self.quad)
    }

    /// How many steps were accepted, left and right together.
    pub fn accepted(&self) -> u32
        ensures value { result ≡ length self.now.steps }
        ensures few { result ≤ 2000000 }
    {
        let _held = self.diagrams.cached();
        self.steps.len() as u32
    }

    /// The order of the variables in force.
    pub fn order(&self) -> Order
        ensures { result ≡ self.now.diagrams.store.order }
    {
        self.diagrams.store().order()
    }

    /// The diagrams, with two variables for each qubit, and the integers that stand in them. The kept function is
    /// "row equals column".
    pub fn parts(&self) -> (&Diagrams, &SliceQuad)
        ensures diagrams { result.0.now ≡ self.now.diagrams }
        ensures quad { result.1.now ≡ self.now.quad }
        ensures variables { length self.now.diagrams.store.order ≡ 2 * self.now.qubits }
        ensures limit { self.now.diagrams.store.limit ≡ self.now.rules.nodes }
        ensures capacity { self.now.diagrams.cache.capacity ≡ self.now.rules.cache }
        ensures stands { Stands self.now.diagrams.store self.now.quad }
        ensures shows { ShowsMatrix self.now.qubits self.now.diagrams.store self.now.quad (work_matrix self.now.qubits self.now.steps) }
        ensures kept { KeepsRowEqualsColumn self.now.qubits self.now.diagrams.store self.now.quad }
    {
        let _held = self.diagrams.cached();
        (&self.diagrams, &self.quad)
    }
}
