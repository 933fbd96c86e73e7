//! One place of a sum: the bit and the carry of three bits.
ghost use Rattle.std.specs.Prelude.{◌≡◌, ◌+◌, IfOk, IfErr, IfSome, ◌∷◌, []};
ghost use Rattle.diagram_model.specs.Functions.{IsPrefixOf};
ghost use Rattle.diagram_model.specs.Stores.{IsLive};
ghost use Rattle.diagram_ops.specs.Bounds.{joint_size_of, TakesAtMost};
ghost use Rattle.diagram_ops.specs.Diagrams.{IsConsistent};
ghost use Rattle.diagram_ops.specs.Made.{StopIs, IsPrefixOfSome};
ghost use Rattle.slice_vec.specs.Growing.{Grows, Denotes};
ghost use Rattle.slice_vec.specs.Places.{IsPair, odd_at, majority_at, less_at};

use diagram_ops::Diagrams;
use node_store::{FALSE, Node, StoreStop};
use std::sync::ledger::Ledger;
use steps::Steps;

/// The table that is true where an odd number of three is true.
const ODD: u8 = 150;

/// The table that is true where at least two of three are true.
const MAJORITY: u8 = 232;

/// The table that is true where the first of three is and the second isn't.
const LESS: u8 = 48;

/// Two nodes of three that are one, and the third.
#[derive(Clone, Copy, Drop)]
pub struct Pair {
    pub twice: Node,
    pub third: Node,
}

/// The bit at a place, and the carry to the next.
#[derive(Clone, Copy, Drop)]
pub struct Place {
    pub bit: Node,
    pub carry: Node,
}

/// Three nodes by two that are one. The third one is then their bit, and the other their carry.
fn paired(a: Node, b: Node, c: Node) -> Option<Pair>
    ensures { IfSome result (IsPair a.0 b.0 c.0) }
{
    if a == b {
        return Some(Pair { twice: a, third: c });
    }
    if a == c {
        return Some(Pair { twice: a, third: b });
    }
    if b == c {
        return Some(Pair { twice: b, third: a });
    }
    None
}

/// Where an odd number of three is true.
pub fn odd<L: Ledger>(
    d: &mut Diagrams,
    a: Node,
    b: Node,
    c: Node,
    steps: &mut Steps<L>,
) -> Result<Node, StoreStop>
    requires sound { IsConsistent d.old }
    requires a { IsLive d.old.store a.0 }
    requires b { IsLive d.old.store b.0 }
    requires c { IsLive d.old.store c.0 }
    ensures grows { Grows d.old (IsPrefixOf d.old.store.order (odd_at d.old.store a.0 b.0 c.0)) d.new }
    ensures node { IfOk result (λ n. Denotes d.new.store n.0 (odd_at d.old.store a.0 b.0 c.0)) }
    ensures stop { IfErr result (StopIs d.new.store (IsPrefixOf d.old.store.order (odd_at d.old.store a.0 b.0 c.0))) }
    ensures steps { TakesAtMost (joint_size_of d.old.store a.0 b.0 c.0) d.old.store d.new.store steps.old steps.new }
{
    if let Some(pair) = paired(a, b, c) {
        return Ok(pair.third);
    }
    d.apply3::<ODD, _>(a, b, c, steps)
}

/// Where at least two of three are true.
fn majority<L: Ledger>(
    d: &mut Diagrams,
    a: Node,
    b: Node,
    c: Node,
    steps: &mut Steps<L>,
) -> Result<Node, StoreStop>
    requires sound { IsConsistent d.old }
    requires a { IsLive d.old.store a.0 }
    requires b { IsLive d.old.store b.0 }
    requires c { IsLive d.old.store c.0 }
    ensures grows { Grows d.old (IsPrefixOf d.old.store.order (majority_at d.old.store a.0 b.0 c.0)) d.new }
    ensures node { IfOk result (λ n. Denotes d.new.store n.0 (majority_at d.old.store a.0 b.0 c.0)) }
    ensures stop { IfErr result (StopIs d.new.store (IsPrefixOf d.old.store.order (majority_at d.old.store a.0 b.0 c.0))) }
    ensures steps { TakesAtMost (joint_size_of d.old.store a.0 b.0 c.0) d.old.store d.new.store steps.old steps.new }
{
    if let Some(pair) = paired(a, b, c) {
        return Ok(pair.twice);
    }
    d.apply3::<MAJORITY, _>(a, b, c, steps)
}

/// The bit and the carry of three bits.
pub fn add_bits<L: Ledger>(
    d: &mut Diagrams,
    a: Node,
    b: Node,
    c: Node,
    steps: &mut Steps<L>,
) -> Result<Place, StoreStop>
    requires sound { IsConsistent d.old }
    requires a { IsLive d.old.store a.0 }
    requires b { IsLive d.old.store b.0 }
    requires c { IsLive d.old.store c.0 }
    ensures grows { Grows d.old (IsPrefixOfSome d.old.store.order (odd_at d.old.store a.0 b.0 c.0 ∷ majority_at d.old.store a.0 b.0 c.0 ∷ [])) d.new }
    ensures bit { IfOk result (λ r. Denotes d.new.store r.bit.0 (odd_at d.old.store a.0 b.0 c.0)) }
    ensures carry { IfOk result (λ r. Denotes d.new.store r.carry.0 (majority_at d.old.store a.0 b.0 c.0)) }
    ensures stop { IfErr result (StopIs d.new.store (IsPrefixOfSome d.old.store.order (odd_at d.old.store a.0 b.0 c.0 ∷ majority_at d.old.store a.0 b.0 c.0 ∷ []))) }
    ensures steps { TakesAtMost (joint_size_of d.old.store a.0 b.0 c.0 + joint_size_of d.old.store a.0 b.0 c.0) d.old.store d.new.store steps.old steps.new }
{
    let bit = odd(d, a, b, c, steps)?;
    let carry = majority(d, a, b, c, steps)?;
    Ok(Place { bit, carry })
}

/// Where `f` is true and `g` isn't.
fn less<L: Ledger>(
    d: &mut Diagrams,
    f: Node,
    g: Node,
    steps: &mut Steps<L>,
) -> Result<Node, StoreStop>
    requires sound { IsConsistent d.old }
    requires f { IsLive d.old.store f.0 }
    requires g { IsLive d.old.store g.0 }
    ensures grows { Grows d.old (IsPrefixOf d.old.store.order (less_at d.old.store f.0 g.0)) d.new }
    ensures node { IfOk result (λ n. Denotes d.new.store n.0 (less_at d.old.store f.0 g.0)) }
    ensures stop { IfErr result (StopIs d.new.store (IsPrefixOf d.old.store.order (less_at d.old.store f.0 g.0))) }
    ensures steps { TakesAtMost (joint_size_of d.old.store f.0 g.0 0) d.old.store d.new.store steps.old steps.new }
{
    if f == FALSE {
        return Ok(f);
    }
    if g == FALSE {
        return Ok(f);
    }
    d.apply3::<LESS, _>(f, g, FALSE, steps)
}

/// A bit that is flipped where `n` is true, plus a carry that is true there only: the bit and the next carry.
pub fn negate_bits<L: Ledger>(
    d: &mut Diagrams,
    a: Node,
    n: Node,
    c: Node,
    steps: &mut Steps<L>,
) -> Result<Place, StoreStop>
    requires sound { IsConsistent d.old }
    requires a { IsLive d.old.store a.0 }
    requires n { IsLive d.old.store n.0 }
    requires c { IsLive d.old.store c.0 }
    ensures grows { Grows d.old (IsPrefixOfSome d.old.store.order (odd_at d.old.store a.0 n.0 c.0 ∷ less_at d.old.store c.0 a.0 ∷ [])) d.new }
    ensures bit { IfOk result (λ r. Denotes d.new.store r.bit.0 (odd_at d.old.store a.0 n.0 c.0)) }
    ensures carry { IfOk result (λ r. Denotes d.new.store r.carry.0 (less_at d.old.store c.0 a.0)) }
    ensures stop { IfErr result (StopIs d.new.store (IsPrefixOfSome d.old.store.order (odd_at d.old.store a.0 n.0 c.0 ∷ less_at d.old.store c.0 a.0 ∷ []))) }
    ensures steps { TakesAtMost (joint_size_of d.old.store a.0 n.0 c.0 + joint_size_of d.old.store c.0 a.0 0) d.old.store d.new.store steps.old steps.new }
{
    let bit = odd(d, a, n, c, steps)?;
    let carry = less(d, c, a, steps)?;
    Ok(Place { bit, carry })
}
