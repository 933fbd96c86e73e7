//! The bits of raw, coordinate by coordinate.
ghost use Rattle.std.specs.Prelude.{◌≡◌, ◌<◌, ◌≤◌, IfOk, IfErr, cond, length};
ghost use Rattle.diagram_ops.specs.Diagrams.{IsConsistent};
ghost use Rattle.diagram_ops.specs.Made.{StopIs};
ghost use Rattle.slice_vec.specs.Growing.{Grows};
ghost use Rattle.slice_quad.specs.Mix.{mixed, raw, old_negates};
ghost use Rattle.slice_quad.specs.Fours.{mix_of, digits_in, AreIntegers};
ghost use Rattle.slice_quad.specs.Raws.{mix_made, AreRaw, AreReduced, AreZeros, GivesFixed, GivesRaw, GivesTerm, GivesUnsigned, IsFixable, IsHalf, IsMix, IsMixable, IsReady};
ghost use Rattle.slice_quad.specs.Terms.{column_of, nodes_old};
ghost use Rattle.slice_quad.specs.Turning.{IsTurning};
ghost use Rattle.slice_quad.specs.Vectors.{vector_in, AreValues};

use crate::controls::gate_of;
use crate::coord::{Coord, root_turn_of};
use crate::diagonal::Diagonal;
use crate::flip::Flips;
use crate::four::Four;
use crate::fourfold::{Makes, each};
use crate::gate::{Gate, Target, negating, signing};
use crate::term::{Column, brought, negates};
use diagram_ops::Diagrams;
use node_store::StoreStop;
use slice_vec::{Slices, add, fix, negate_where, select, zero};
use std::sync::ledger::Ledger;
use steps::Steps;

/// The coordinates with the target clear, and with it set.
#[derive(Drop)]
pub struct Halves {
    pub low: Four,
    pub high: Four,
}

impl Halves {
    /// Those with the target set, or clear.
    fn get(&self, set: bool) -> &Four
        ensures { result.now ≡ cond set self.now.high self.now.low }
    {
        if set {
            return &self.high;
        }
        &self.low
    }
}

/// The first or the second term where the controls don't hold.
fn old_of<'a>(rooted: bool, q: &'a Four, zero: &'a Slices, z: Coord, second: bool) -> &'a Slices
    ensures { result.now ≡ nodes_old rooted z second q.now zero.now }
{
    if rooted {
        return q.get(root_turn_of(z, second).from);
    }
    if second {
        return zero;
    }
    q.get(z)
}

/// Whether it is negated.
fn is_old_negated(rooted: bool, z: Coord, second: bool) -> bool
    ensures { result ≡ old_negates rooted z second }
{
    rooted && root_turn_of(z, second).negated
}

/// The first or the second column of the gate's matrix, for coordinate `z`.
fn column_at(target: &Target, z: Coord, second: bool) -> Column
    ensures { result ≡ column_of target.now z second }
{
    let out = is_old_negated(target.rooted, z, second);
    if second {
        return Column {
            low: target.low_high,
            high: target.high_high,
            out,
        };
    }
    Column {
        low: target.low_low,
        high: target.high_low,
        out,
    }
}

/// A gate on a vector, from its coordinates with the target fixed each way.
#[derive(Clone, Copy)]
struct Mixing<'a> {
    gate: &'a Gate,
    q: &'a Four,
    halves: &'a Halves,
    zero: &'a Slices,
}

impl<'a> Mixing<'a> {
    /// The first or the second term of coordinate `z`, without its sign.
    fn unsigned<L: Ledger>(
        &self,
        d: &mut Diagrams,
        z: Coord,
        second: bool,
        steps: &mut Steps<L>,
    ) -> Result<Slices, StoreStop>
        requires sound { IsConsistent d.old }
        requires ready { IsReady d.old.store self.now.gate.now self.now.q.now self.now.halves.now self.now.zero.now }
        ensures term { IfOk result (GivesUnsigned self.now.gate.now.target self.now.q.now second d.old.store z d.new.store) }
        ensures grows { Grows d.old (IsMix d.old.store self.now.gate.now.target self.now.q.now) d.new }
        ensures stop { IfErr result (StopIs d.new.store (IsMix d.old.store self.now.gate.now.target self.now.q.now)) }
    {
        let gate = self.gate;
        let column = column_at(&gate.target, z, second);
        let from = self.halves.get(second);
        let low = brought(column.low, z, from, self.zero);
        let high = brought(column.high, z, from, self.zero);
        let old = old_of(gate.target.rooted, self.q, self.zero, z, second);
        let by_target = select(d, gate.is_set, high, low, steps)?;
        let by_controls = select(d, gate.all, &by_target, old, steps)?;
        Ok(by_controls)
    }

    /// The first or the second term of coordinate `z`, with its sign.
    fn part<L: Ledger>(
        &self,
        d: &mut Diagrams,
        z: Coord,
        second: bool,
        steps: &mut Steps<L>,
    ) -> Result<Slices, StoreStop>
        requires sound { IsConsistent d.old }
        requires ready { IsReady d.old.store self.now.gate.now self.now.q.now self.now.halves.now self.now.zero.now }
        ensures term { IfOk result (GivesTerm self.now.gate.now.target self.now.q.now second d.old.store z d.new.store) }
        ensures grows { Grows d.old (IsMix d.old.store self.now.gate.now.target self.now.q.now) d.new }
        ensures stop { IfErr result (StopIs d.new.store (IsMix d.old.store self.now.gate.now.target self.now.q.now)) }
    {
        let gate = self.gate;
        let column = column_at(&gate.target, z, second);
        let sign = signing(
            d,
            gate,
            negates(column.low, z),
            negates(column.high, z),
            column.out,
            steps,
        )?;
        let term = self.unsigned(d, z, second, steps)?;
        let signed = negate_where(d, &term, sign, steps)?;
        Ok(signed)
    }
}

impl<'a> Makes for Mixing<'a> {
    ghost takes = { λ s d. IsReady d s.gate.now s.q.now s.halves.now s.zero.now };

    ghost functions = { λ s. mix_made s.gate.now.target s.q.now };

    ghost gives = { λ s. GivesRaw s.gate.now.target s.q.now };

    /// The sum of its two terms.
    fn make<L: Ledger>(
        &self,
        d: &mut Diagrams,
        z: Coord,
        steps: &mut Steps<L>,
    ) -> Result<Slices, StoreStop> {
        let low = self.part(d, z, false, steps)?;
        let high = self.part(d, z, true, steps)?;
        let sum = add(d, &low, &high, steps)?;
        Ok(sum)
    }
}

/// A vector with the target fixed.
#[derive(Clone, Copy)]
struct Fixing<'a> {
    q: &'a Four,
    target: &'a Target,
    bit: bool,
}

impl<'a> Makes for Fixing<'a> {
    ghost takes = { λ s d. IsFixable d s.target.now s.q.now };

    ghost functions = { λ s. mix_made s.target.now s.q.now };

    ghost gives = { λ s. GivesFixed s.target.now.target s.bit s.q.now };

    fn make<L: Ledger>(
        &self,
        d: &mut Diagrams,
        z: Coord,
        steps: &mut Steps<L>,
    ) -> Result<Slices, StoreStop> {
        let bits = fix(d, self.q.get(z), self.target.target, self.bit, steps)?;
        Ok(bits)
    }
}

/// The four coordinates with the target clear, or with it set.
fn half<L: Ledger>(
    d: &mut Diagrams,
    q: &Four,
    target: &Target,
    bit: bool,
    steps: &mut Steps<L>,
) -> Result<Four, StoreStop>
    requires sound { IsConsistent d.old }
    requires whole { AreIntegers d.old.store (length q.now.a) q.now }
    requires within { target.now.target < length d.old.store.order }
    ensures half { IfOk result (IsHalf d.new.store target.now.target bit q.now) }
    ensures grows { Grows d.old (IsMix d.old.store target.now q.now) d.new }
    ensures stop { IfErr result (StopIs d.new.store (IsMix d.old.store target.now q.now)) }
{
    let four = each(d, &Fixing { q, target, bit }, steps)?;
    Ok(four)
}

/// The gate's matrix times the vector, where it is 1 and the j-th power of ω on the diagonal.
fn turned<L: Ledger>(
    d: &mut Diagrams,
    gate: &Gate,
    j: u8,
    q: &Four,
    zero: &Slices,
    steps: &mut Steps<L>,
) -> Result<Four, StoreStop>
    requires sound { IsConsistent d.old }
    requires mixable { IsMixable d.old.store gate.now q.now }
    requires turning { IsTurning gate.now.target j }
    requires zero { AreZeros q.now zero.now }
    ensures raw { IfOk result (AreRaw d.new.store (length q.now.a) (raw (mix_of gate.now.target) (digits_in d.old.store q.now))) }
    ensures grows { Grows d.old (IsMix d.old.store gate.now.target q.now) d.new }
    ensures stop { IfErr result (StopIs d.new.store (IsMix d.old.store gate.now.target q.now)) }
{
    let here = negating(d, gate, false, true, steps)?;
    let target = &gate.target;
    let raw = each(
        d,
        &Diagonal {
            target,
            j,
            here,
            q,
            zero,
        },
        steps,
    )?;
    Ok(raw)
}

/// The gate's matrix times the vector, whatever the matrix.
fn mix<L: Ledger>(
    d: &mut Diagrams,
    gate: &Gate,
    q: &Four,
    zero: &Slices,
    steps: &mut Steps<L>,
) -> Result<Four, StoreStop>
    requires sound { IsConsistent d.old }
    requires mixable { IsMixable d.old.store gate.now q.now }
    requires zero { AreZeros q.now zero.now }
    ensures raw { IfOk result (AreRaw d.new.store (length q.now.a) (raw (mix_of gate.now.target) (digits_in d.old.store q.now))) }
    ensures grows { Grows d.old (IsMix d.old.store gate.now.target q.now) d.new }
    ensures stop { IfErr result (StopIs d.new.store (IsMix d.old.store gate.now.target q.now)) }
{
    let low = half(d, q, &gate.target, false, steps)?;
    let high = half(d, q, &gate.target, true, steps)?;
    let halves = &Halves { low, high };
    let raw = each(
        d,
        &Mixing {
            gate,
            q,
            halves,
            zero,
        },
        steps,
    )?;
    Ok(raw)
}

/// The gate's matrix times the vector.
///
/// Without a factor 1/√2, X flips the target in one walk a bit, and a diagonal matrix takes one to three connectives a bit
/// of a coordinate, which end at once where a control is false. Any other matrix takes the cofactors of all bits, and up to two choices, two negations and a
/// sum a coordinate.
fn raw_of<L: Ledger>(
    d: &mut Diagrams,
    gate: &Gate,
    q: &Four,
    steps: &mut Steps<L>,
) -> Result<Four, StoreStop>
    requires sound { IsConsistent d.old }
    requires mixable { IsMixable d.old.store gate.now q.now }
    ensures raw { IfOk result (AreRaw d.new.store (length q.now.a) (raw (mix_of gate.now.target) (digits_in d.old.store q.now))) }
    ensures grows { Grows d.old (IsMix d.old.store gate.now.target q.now) d.new }
    ensures stop { IfErr result (StopIs d.new.store (IsMix d.old.store gate.now.target q.now)) }
{
    if gate.target.is_flip() {
        return each(d, &Flips { gate, q }, steps);
    }
    let zeros = zero(*q.a.bits.allocator(), q.a.width() as u8)?;
    if let Some(j) = gate.target.turning() {
        return turned(d, gate, j, q, &zeros, steps);
    }
    mix(d, gate, q, &zeros, steps)
}

/// The gate's matrix times the vector, from the gate's own nodes on.
pub fn mix_raw<L: Ledger>(
    d: &mut Diagrams,
    target: Target,
    q: &Four,
    steps: &mut Steps<L>,
) -> Result<Four, StoreStop>
    requires sound { IsConsistent d.old }
    requires reduced { AreReduced target }
    requires whole { AreIntegers d.old.store (length q.now.a) q.now }
    requires some { 1 ≤ length q.now.a }
    requires few { length q.now.a ≤ 128 }
    requires target { target.target < length d.old.store.order }
    requires controls { length target.controls ≤ length d.old.store.order }
    ensures values { IfOk result (AreValues d.new.store (mixed (mix_of target) (vector_in d.old.store q.now))) }
    ensures grows { Grows d.old (IsMix d.old.store target q.now) d.new }
    ensures stop { IfErr result (StopIs d.new.store (IsMix d.old.store target q.now)) }
{
    let gate = gate_of(d, target, steps)?;
    let raw = raw_of(d, &gate, q, steps)?;
    Ok(raw)
}
