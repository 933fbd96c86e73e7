//! A text's vector.
//!
//! A text is read as the numbers in it, whatever stands between them. The nodes are made from them in their order, and then the text of
//! what was built is compared with the given one, byte by byte: so only the one text of a snapshot is accepted.
ghost use Rattle.std.specs.Prelude.{◌≡◌, ℕ, ◌+◌, ◌*◌, ◌<◌, ◌≤◌, ◌↔◌, IsTrue, true, false, IfOk, OnOk, IfErr, length};
ghost use Rattle.diagram_model.specs.Stores.{held};
ghost use Rattle.diagram_ops.specs.Diagrams.{IsConsistent};
ghost use Rattle.slice_quad.specs.Vectors.{Stands};
ghost use Rattle.snapshot.specs.Snapshots.{Snapshot, nodes_in, snapshot_of, snapshot_text};
ghost use Rattle.snapshot.specs.Making.{OnBad};
ghost use Rattle.snapshot.specs.Reading.{HasShape, Spells};
ghost use Rattle.snapshot.specs.Loading.{IsTextOf, IsLoaded, LoadStopMeans};
ghost use Rattle.snapshot.specs.Judging.{AreCut, ArePartsOf, IsBuilt, IsJudged};

use crate::least::{is_narrow, is_reduced};
use crate::loaded::{LoadStop, Loaded};
use crate::making::{MakeStop, four_of, nodes_of};
use crate::numerals::numerals;
use crate::ordering::order_of;
use crate::saving::{SaveStop, save_within};
use crate::shape::{Shape, shape_of};
use amp_dense::Rules;
use bit_lists::{Order, OutOfMemory};
use diagram_ops::Diagrams;
use node_store::{FALSE, Store};
use slice_quad::{Four, SliceQuad};
use std::alloc::Global;
use std::marker::Brand;
use std::sync::ledger::{Blank, Ledger};
use steps::Steps;

/// The snapshot of a text: its vector, in diagrams with its order, the limit of the rules, and its nodes alone.
///
/// `Bad` comes exactly where it is the text of no snapshot, whatever the rules allow; then `Width` exactly where its width is more than theirs, and then `Nodes` exactly where
/// its nodes are. Its time is linear in the text. Takes memory for the nodes, for four bytes a number of the text, and for a second text.
pub fn load_text(alloc: Global, text: &[u8], rules: &Rules) -> Result<Loaded, LoadStop>
    ensures loaded { IfOk result (IsLoaded rules.now text.now) }
    ensures stop { IfErr result (LoadStopMeans rules.now text.now) }
{
    let most = rules.width();
    let loaded = match judged(alloc, text, rules) {
        Ok(loaded) => loaded,
        Err(MakeStop::Bad) => return Err(LoadStop::Bad),
        Err(MakeStop::OutOfMemory) => return Err(LoadStop::OutOfMemory),
    };
    if loaded.quad.four.a.width() > most as usize {
        return Err(LoadStop::Width);
    }
    let store = loaded.diagrams.store();
    if store.held() > rules.nodes {
        return Err(LoadStop::Nodes {
            order: store.order(),
            held: rules.nodes,
        });
    }
    Ok(loaded)
}

/// The snapshot of a text, in a store for as many nodes as the rules allow, or as the text names, where that is more.
fn judged(alloc: Global, text: &[u8], rules: &Rules) -> Result<Loaded, MakeStop>
    ensures judged { IfOk result (IsJudged rules.now text.now) }
    ensures bad { IfErr result (OnBad ((s : Snapshot) → IsTextOf text.now s → ⊥)) }
{
    judged_counted::<Brand>(alloc, text, rules, Blank::new(1))
}

fn judged_counted<L: Ledger>(
    alloc: Global,
    text: &[u8],
    rules: &Rules,
    blank: Blank,
) -> Result<Loaded, MakeStop>
    requires name { blank.name ≡ L.name }
    requires parts { blank.parts ≡ L.parts }
    requires some { 0 < blank.parts }
    ensures judged { IfOk result (IsJudged rules.now text.now) }
    ensures bad { IfErr result (OnBad ((s : Snapshot) → IsTextOf text.now s → ⊥)) }
{
    let numbers = numerals(alloc, text)?;
    let loaded = built::<L>(alloc, &numbers, rules, blank)?;
    if !is_narrow(&loaded.quad) {
        return Err(MakeStop::Bad);
    }
    if !is_reduced(&loaded.quad) {
        return Err(MakeStop::Bad);
    }
    let same = is_same(alloc, &loaded.diagrams, &loaded.quad, text)?;
    if !same {
        return Err(MakeStop::Bad);
    }
    Ok(loaded)
}

/// Whether a vector's text is this one.
fn is_same(alloc: Global, d: &Diagrams, q: &SliceQuad, text: &[u8]) -> Result<bool, OutOfMemory>
    requires stands { Stands d.now.store q.now }
    requires few { length d.now.store.order ≤ 64 }
    ensures same { IfOk result (λ b. b ≡ true → text.now ≡ snapshot_text (snapshot_of d.now.store q.now)) }
    ensures other { IfOk result (λ b. b ≡ false → text.now ≡ snapshot_text (snapshot_of d.now.store q.now) → ⊥) }
    ensures held { IfOk result (λ b. b ≡ true → nodes_in (snapshot_of d.now.store q.now) ≤ held d.now.store) }
{
    match save_within(alloc, d, q, text.len()) {
        Ok(own) => Ok(own.as_slice() == text),
        Err(SaveStop::TooLong) => Ok(false),
        Err(SaveStop::OutOfMemory) => Err(OutOfMemory),
    }
}

/// The vector of a text's numbers. `Bad` comes where they are those of no snapshot.
fn built<L: Ledger>(
    alloc: Global,
    numbers: &[u32],
    rules: &Rules,
    blank: Blank,
) -> Result<Loaded, MakeStop>
    requires name { blank.name ≡ L.name }
    requires parts { blank.parts ≡ L.parts }
    requires some { 0 < blank.parts }
    ensures built { IfOk result (IsBuilt rules.now numbers.now) }
    ensures bad { IfErr result (OnBad ((s : Snapshot) → Spells numbers.now s → ⊥)) }
{
    let _width = rules.width();
    let mut steps = Steps::<L>::new(blank);
    let Some(shape) = shape_of(numbers) else {
        return Err(MakeStop::Bad);
    };
    let parts = parts_of(numbers, shape);
    let Some(order) = order_of(parts.order) else {
        return Err(MakeStop::Bad);
    };
    let limit = rules.nodes.max(shape.nodes);
    let mut diagrams = diagrams_in(alloc, &order, limit, rules.cache)?;
    let quad = vector_of(
        alloc,
        &mut diagrams,
        shape,
        parts.lines,
        parts.bits,
        &mut steps,
    )?;
    Ok(Loaded {
        diagrams,
        quad,
        qubits: shape.qubits,
    })
}

/// The numbers of the variables, of the lines of nodes, and of the bits.
#[derive(Drop)]
struct Parts<'a> {
    order: &'a [u32],
    lines: &'a [u32],
    bits: &'a [u32],
}

/// The parts of a text's numbers.
fn parts_of(numbers: &[u32], shape: Shape) -> Parts<'_>
    requires shape { HasShape numbers.now shape }
    ensures cut { AreCut numbers.now shape result.order.now result.lines.now result.bits.now }
    ensures order { length result.order.now ≡ shape.qubits }
    ensures lines { length result.lines.now ≡ 3 * shape.nodes }
    ensures bits { length result.bits.now ≡ 4 * shape.width }
{
    let (_format, rest) = numbers.split_at(2);
    let (order, rest) = rest.split_at(shape.qubits as usize);
    let (_counts, rest) = rest.split_at(3);
    let (lines, bits) = rest.split_at(3 * shape.nodes as usize);
    Parts { order, lines, bits }
}

/// Diagrams that hold no node, in a given order.
fn diagrams_in(
    alloc: Global,
    order: &Order,
    limit: u32,
    capacity: u32,
) -> Result<Diagrams, OutOfMemory>
    requires some { 1 ≤ limit }
    requires limit { limit ≤ 16777216 }
    requires some_entry { 1 ≤ capacity }
    requires capacity { capacity ≤ 1048576 }
    ensures empty { IfOk result (λ d. held d.store ≡ 0) }
    ensures order { IfOk result (λ d. d.store.order ≡ order.now) }
    ensures limit { IfOk result (λ d. d.store.limit ≡ limit) }
    ensures sound { IfOk result IsConsistent }
{
    let mut d = Diagrams::new(alloc, 0, limit, capacity)?;
    *d.lend() = Store::with_order(alloc, order, limit)?;
    let _cached = d.cached();
    Ok(d)
}

/// The vector of the lines of its nodes and of the numbers of its bits.
fn vector_of<L: Ledger>(
    alloc: Global,
    d: &mut Diagrams,
    shape: Shape,
    lines: &[u32],
    bits: &[u32],
    steps: &mut Steps<L>,
) -> Result<SliceQuad, MakeStop>
    requires lines { length lines.now ≡ 3 * shape.nodes }
    requires bits { length bits.now ≡ 4 * shape.width }
    requires least { 2 ≤ shape.width }
    requires greatest { shape.width ≤ 128 }
    ensures stands { IfOk result (Stands d.new.store) }
    ensures kept { IfOk result (λ q. q.kept.0 ≡ 0) }
    ensures exponent { IfOk result (λ q. q.exponent ≡ shape.exponent) }
    ensures same { IfOk result (λ q. (s : Snapshot) → ArePartsOf s shape d.old.store.order lines.now bits.now → snapshot_of d.new.store q ≡ s) }
    ensures bad { IfErr result (OnBad ((s : Snapshot) → ArePartsOf s shape d.old.store.order lines.now bits.now → ⊥)) }
    ensures held { OnOk result (held d.new.store ≤ held d.old.store + shape.nodes) }
    ensures order { d.new.store.order ≡ d.old.store.order }
    ensures limit { d.new.store.limit ≡ d.old.store.limit }
    ensures sound { IsConsistent d.new }
{
    d.forget();
    let nodes = nodes_of(alloc, d.lend(), lines, steps)?;
    let _cached = d.cached();
    let four = four_of(alloc, &nodes, bits, shape.width as usize)?;
    let quad = quad_of(four, shape.exponent);
    Ok(quad)
}

/// A vector of four integers of one width.
fn quad_of(four: Four, exponent: u32) -> SliceQuad
    requires least { 2 ≤ length four.a }
    requires greatest { length four.a ≤ 128 }
    requires width_b { length four.b ≡ length four.a }
    requires width_c { length four.c ≡ length four.a }
    requires width_d { length four.d ≡ length four.a }
    ensures four { result.four ≡ four }
    ensures exponent { result.exponent ≡ exponent }
    ensures kept { result.kept.0 ≡ 0 }
{
    SliceQuad {
        four,
        exponent,
        kept: FALSE,
    }
}
