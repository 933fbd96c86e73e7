//! A gate with one target, and the nodes of its target and its controls.
ghost use Rattle.std.specs.Prelude.{◌≡◌, IfOk, IfErr, IfSome, IsTrue};
ghost use Rattle.gate_set.specs.declared.entry.Entry.TheVariants.{Zero, Omega};
ghost use Rattle.diagram_model.specs.Functions.{IsPrefixOf};
ghost use Rattle.diagram_model.specs.Stores.{Diagram, IsSound};
ghost use Rattle.diagram_ops.specs.Diagrams.{IsConsistent};
ghost use Rattle.diagram_ops.specs.Made.{StopIs};
ghost use Rattle.slice_vec.specs.Growing.{Grows, Denotes};
ghost use Rattle.slice_quad.specs.Fours.{mix_of, AreItsNodes};
ghost use Rattle.slice_quad.specs.Column.{by_target, where_negated, where_signed};
ghost use Rattle.slice_quad.specs.Raws.{IsFlip, IsUnit};
ghost use Rattle.slice_quad.specs.Turning.{IsTurning};

use crate::nodes::BOTH;
use bit_lists::Bits;
use diagram_ops::Diagrams;
use gate_set::Entry;
use node_store::{FALSE, Node, StoreStop, TRUE};
use std::sync::ledger::Ledger;
use steps::Steps;

/// The matrix, by row and column, on a target where the controls hold.
#[derive(Clone, Copy)]
pub struct Target {
    pub controls: Bits,
    pub target: u8,
    pub low_low: Entry,
    pub low_high: Entry,
    pub high_low: Entry,
    pub high_high: Entry,
    /// Whether a factor 1/√2 is left out: then all other entries are multiplied by √2.
    pub rooted: bool,
}

/// Whether an entry is 0.
fn is_zero(entry: Entry) -> bool
    ensures { IsTrue result → entry ≡ Zero }
{
    match entry {
        Entry::Zero => true,
        Entry::Omega(_) => false,
        Entry::Root2 => false,
    }
}

/// Whether an entry is 1.
fn is_one(entry: Entry) -> bool
    ensures { IsTrue result → entry ≡ Omega 0 }
{
    match entry {
        Entry::Zero => false,
        Entry::Root2 => false,
        Entry::Omega(j) => j == 0,
    }
}

impl Target {
    /// Whether the matrix is that of X.
    pub fn is_flip(self) -> bool
        ensures { IsTrue result → IsFlip self }
    {
        !self.rooted
            && is_zero(self.low_low)
            && is_one(self.low_high)
            && is_one(self.high_low)
            && is_zero(self.high_high)
    }

    /// Whether the matrix is the unit matrix.
    pub fn is_unit(self) -> bool
        ensures { IsTrue result → IsUnit self }
    {
        !self.rooted
            && is_one(self.low_low)
            && is_zero(self.low_high)
            && is_zero(self.high_low)
            && is_one(self.high_high)
    }

    /// The power of ω, not the 0th, that stands beside 1 on the diagonal, if the matrix is such a one.
    pub fn turning(self) -> Option<u8>
        ensures { IfSome result (IsTurning self) }
    {
        match self.high_high {
            Entry::Zero => None,
            Entry::Root2 => None,
            Entry::Omega(j) => {
                if j > 0
                    && !self.rooted
                    && is_one(self.low_low)
                    && is_zero(self.low_high)
                    && is_zero(self.high_low)
                {
                    Some(j)
                } else {
                    None
                }
            }
        }
    }
}

/// A gate with the nodes of its target's variable, of its negation, and of "all controls are true".
#[derive(Clone, Copy)]
pub struct Gate {
    pub target: Target,
    pub is_set: Node,
    pub is_clear: Node,
    pub all: Node,
}

/// The table of "the second, or not the first".
const IMPLIED: u8 = 207;

/// Where the target is clear if `low`, or set if `high`.
fn row_node(gate: &Gate, low: bool, high: bool) -> Node
    ensures { (d : Diagram) → IsSound d → AreItsNodes d gate.now → Denotes d result.0 (by_target (mix_of gate.now.target) low high) }
{
    if low {
        if high {
            return TRUE;
        }
        return gate.is_clear;
    }
    if high {
        return gate.is_set;
    }
    FALSE
}

/// Where the controls hold, and the target is clear if `low`, or set if `high`; and elsewhere if `out`.
pub fn signing<L: Ledger>(
    d: &mut Diagrams,
    gate: &Gate,
    low: bool,
    high: bool,
    out: bool,
    steps: &mut Steps<L>,
) -> Result<Node, StoreStop>
    requires sound { IsConsistent d.old }
    requires nodes { AreItsNodes d.old.store gate.now }
    ensures grows { Grows d.old (IsPrefixOf d.old.store.order (where_signed (mix_of gate.now.target) low high out)) d.new }
    ensures node { IfOk result (λ n. Denotes d.new.store n.0 (where_signed (mix_of gate.now.target) low high out)) }
    ensures stop { IfErr result (StopIs d.new.store (IsPrefixOf d.old.store.order (where_signed (mix_of gate.now.target) low high out))) }
{
    if out {
        let row = row_node(gate, low, high);
        return d.apply3::<IMPLIED, _>(gate.all, row, FALSE, steps);
    }
    negating(d, gate, low, high, steps)
}

/// Where the controls hold, and the target is clear if `low`, or set if `high`.
pub fn negating<L: Ledger>(
    d: &mut Diagrams,
    gate: &Gate,
    low: bool,
    high: bool,
    steps: &mut Steps<L>,
) -> Result<Node, StoreStop>
    requires sound { IsConsistent d.old }
    requires nodes { AreItsNodes d.old.store gate.now }
    ensures grows { Grows d.old (IsPrefixOf d.old.store.order (where_negated (mix_of gate.now.target) low high)) d.new }
    ensures node { IfOk result (λ n. Denotes d.new.store n.0 (where_negated (mix_of gate.now.target) low high)) }
    ensures stop { IfErr result (StopIs d.new.store (IsPrefixOf d.old.store.order (where_negated (mix_of gate.now.target) low high))) }
{
    if low {
        if high {
            return Ok(gate.all);
        }
        return d.apply3::<BOTH, _>(gate.all, gate.is_clear, FALSE, steps);
    }
    if high {
        return d.apply3::<BOTH, _>(gate.all, gate.is_set, FALSE, steps);
    }
    Ok(FALSE)
}
