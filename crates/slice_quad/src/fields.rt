//! What is read of a vector or matrix without its diagrams.
ghost use Rattle.std.specs.Prelude.{◌≡◌, ℕ, ◌≤◌, ◌++◌, ◌∷◌, [], OnOk, IfOk, length, map};
ghost use Rattle.slice_quad.specs.Fours.{nodes_of};
ghost use Rattle.slice_quad.specs.Fields.{numbers, roots_of};

use crate::coord::Coord;
use crate::quad::SliceQuad;
use bit_lists::OutOfMemory;
use node_store::Node;
use slice_vec::Slices;
use std::alloc::Global;

/// The integers of a coordinate.
pub fn bits(q: &SliceQuad, z: Coord) -> &Slices
    ensures { result.now ≡ nodes_of q.now.four z }
{
    q.four.get(z)
}

/// The power of √2 that all entries stand over.
pub fn exponent(q: &SliceQuad) -> u32
    ensures { result ≡ q.now.exponent }
{
    q.exponent
}

/// How many bits each coordinate has: 2 to 128.
pub fn width(q: &SliceQuad) -> u8
    ensures { result ≡ length q.now.four.a }
{
    q.four.a.width() as u8
}

/// The function that is kept beside the integers.
pub fn kept(q: &SliceQuad) -> Node
    ensures { result.0 ≡ q.now.kept.0 }
{
    q.kept
}

/// Adds the nodes of an integer, lowest bit first.
fn push_bits(out: &mut Vec<Node>, x: &Slices) -> Result<(), OutOfMemory>
    ensures { OnOk result (numbers out.new.items ≡ numbers out.old.items ++ x.now) }
{
    for i in 0..x.width() {
        out.push(x.bit(i))?;
    }
    Ok(())
}

/// All nodes of the four coordinates, and the kept one.
pub fn roots(alloc: Global, q: &SliceQuad) -> Result<Vec<Node>, OutOfMemory>
    ensures { IfOk result (λ v. numbers v.items ≡ roots_of q.now) }
{
    let mut out = Vec::new(alloc);
    push_bits(&mut out, &q.four.a)?;
    push_bits(&mut out, &q.four.b)?;
    push_bits(&mut out, &q.four.c)?;
    push_bits(&mut out, &q.four.d)?;
    out.push(q.kept)?;
    Ok(out)
}
