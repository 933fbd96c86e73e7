//! Two variables exchanged where controls hold.
ghost use Rattle.std.specs.Prelude.{◌≡◌, ◌<◌, ◌≤◌, IfOk, IfErr, length};
ghost use Rattle.diagram_ops.specs.Diagrams.{IsConsistent};
ghost use Rattle.diagram_ops.specs.Made.{StopIs};
ghost use Rattle.slice_vec.specs.Growing.{Grows};
ghost use Rattle.slice_vec.specs.Slices.{StandsIn, digits_of};
ghost use Rattle.slice_quad.specs.Crossings.{exchange_of, exchange_made, AreCrossed, AreSelected, GivesCrossed, InExchange, IsCrossable, IsCrossing, IsExchange};
ghost use Rattle.slice_quad.specs.Exchange.{exchange_digits, exchanged};
ghost use Rattle.slice_quad.specs.Fours.{AreIntegers};
ghost use Rattle.slice_quad.specs.Stepping.{exchange_with};
ghost use Rattle.slice_quad.specs.Terms.{IsOf};
ghost use Rattle.slice_quad.specs.Vectors.{vector_in, AreValues};

use crate::controls::controls_node;
use crate::coord::Coord;
use crate::four::Four;
use crate::fourfold::{Makes, each};
use crate::nodes::variable_node;
use bit_lists::Bits;
use diagram_ops::Diagrams;
use node_store::{Node, StoreStop};
use slice_vec::{Slices, fix, select, select_fixed};
use std::sync::ledger::Ledger;
use steps::Steps;

/// Two variables and controls, with the nodes of the variables and of "all controls are true".
#[derive(Clone, Copy)]
pub struct Crossing {
    pub controls: Bits,
    pub first: u8,
    pub second: u8,
    pub is_first: Node,
    pub is_second: Node,
    pub all: Node,
}

/// The two variables and the controls, with their nodes.
fn crossing_of<L: Ledger>(
    d: &mut Diagrams,
    controls: &Bits,
    first: u8,
    second: u8,
    steps: &mut Steps<L>,
) -> Result<Crossing, StoreStop>
    requires sound { IsConsistent d.old }
    requires first { first < length d.old.store.order }
    requires second { second < length d.old.store.order }
    requires controls { length controls.now ≤ length d.old.store.order }
    ensures grows { Grows d.old (IsCrossing d.old.store (exchange_with controls.now first second)) d.new }
    ensures crossing { IfOk result (λ c. exchange_of c ≡ exchange_with controls.now first second) }
    ensures nodes { IfOk result (AreCrossed d.new.store) }
    ensures stop { IfErr result (StopIs d.new.store (IsCrossing d.old.store (exchange_with controls.now first second))) }
{
    let is_first = variable_node(d, first)?;
    let is_second = variable_node(d, second)?;
    let all = controls_node(d, controls, steps)?;
    Ok(Crossing {
        controls: *controls,
        first,
        second,
        is_first,
        is_second,
        all,
    })
}

/// The selections by the second variable, for each value of it.
#[derive(Drop)]
pub struct Selected {
    pub clear: Slices,
    pub set: Slices,
}

/// Two cofactors and two choices a bit.
fn by_second<L: Ledger>(
    d: &mut Diagrams,
    crossing: &Crossing,
    x: &Slices,
    steps: &mut Steps<L>,
) -> Result<Selected, StoreStop>
    requires sound { IsConsistent d.old }
    requires nodes { AreCrossed d.old.store crossing.now }
    requires x { StandsIn d.old.store x.now }
    requires first { crossing.now.first < length d.old.store.order }
    requires second { crossing.now.second < length d.old.store.order }
    ensures selected { IfOk result (AreSelected d.new.store (length x.now) (exchange_of crossing.now) (digits_of d.old.store x.now)) }
    ensures grows { Grows d.old (InExchange d.old.store (exchange_of crossing.now) x.now) d.new }
    ensures stop { IfErr result (StopIs d.new.store (InExchange d.old.store (exchange_of crossing.now) x.now)) }
{
    let low = fix(d, x, crossing.first, false, steps)?;
    let high = fix(d, x, crossing.first, true, steps)?;
    let clear = select_fixed(
        d,
        crossing.is_second,
        &high,
        &low,
        crossing.second,
        false,
        steps,
    )?;
    let set = select_fixed(
        d,
        crossing.is_second,
        &high,
        &low,
        crossing.second,
        true,
        steps,
    )?;
    Ok(Selected { clear, set })
}

/// The integer with the two variables exchanged where the controls hold.
///
/// Two cofactors and four choices a bit, of which the last one costs nothing where there is no control.
fn crossed<L: Ledger>(
    d: &mut Diagrams,
    crossing: &Crossing,
    x: &Slices,
    steps: &mut Steps<L>,
) -> Result<Slices, StoreStop>
    requires sound { IsConsistent d.old }
    requires nodes { AreCrossed d.old.store crossing.now }
    requires x { StandsIn d.old.store x.now }
    requires first { crossing.now.first < length d.old.store.order }
    requires second { crossing.now.second < length d.old.store.order }
    ensures exchanged { IfOk result (IsOf d.new.store (length x.now) (exchange_digits (exchange_of crossing.now) (digits_of d.old.store x.now))) }
    ensures grows { Grows d.old (InExchange d.old.store (exchange_of crossing.now) x.now) d.new }
    ensures stop { IfErr result (StopIs d.new.store (InExchange d.old.store (exchange_of crossing.now) x.now)) }
{
    let choices = by_second(d, crossing, x, steps)?;
    let swapped = select(d, crossing.is_first, &choices.set, &choices.clear, steps)?;
    let bits = select(d, crossing.all, &swapped, x, steps)?;
    Ok(bits)
}

/// The exchange of the coordinates of a vector.
#[derive(Clone, Copy)]
struct Exchanging<'a> {
    crossing: &'a Crossing,
    q: &'a Four,
}

impl<'a> Makes for Exchanging<'a> {
    ghost takes = { λ s d. IsCrossable d s.crossing.now s.q.now };

    ghost functions = { λ s. exchange_made (exchange_of s.crossing.now) s.q.now };

    ghost gives = { λ s. GivesCrossed (exchange_of s.crossing.now) s.q.now };

    fn make<L: Ledger>(
        &self,
        d: &mut Diagrams,
        z: Coord,
        steps: &mut Steps<L>,
    ) -> Result<Slices, StoreStop> {
        let bits = crossed(d, self.crossing, self.q.get(z), steps)?;
        Ok(bits)
    }
}

/// The vector with the two variables exchanged where the controls hold.
pub fn exchange_raw<L: Ledger>(
    d: &mut Diagrams,
    controls: &Bits,
    first: u8,
    second: u8,
    q: &Four,
    steps: &mut Steps<L>,
) -> Result<Four, StoreStop>
    requires sound { IsConsistent d.old }
    requires whole { AreIntegers d.old.store (length q.now.a) q.now }
    requires first { first < length d.old.store.order }
    requires second { second < length d.old.store.order }
    requires controls { length controls.now ≤ length d.old.store.order }
    ensures values { IfOk result (AreValues d.new.store (exchanged (exchange_with controls.now first second) (vector_in d.old.store q.now))) }
    ensures grows { Grows d.old (IsExchange d.old.store (exchange_with controls.now first second) q.now) d.new }
    ensures stop { IfErr result (StopIs d.new.store (IsExchange d.old.store (exchange_with controls.now first second) q.now)) }
{
    let crossing = crossing_of(d, controls, first, second, steps)?;
    let raw = each(
        d,
        &Exchanging {
            crossing: &crossing,
            q,
        },
        steps,
    )?;
    Ok(raw)
}
