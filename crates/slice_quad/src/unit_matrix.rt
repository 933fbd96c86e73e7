//! The identity matrix.
ghost use Rattle.std.specs.Prelude.{◌≡◌, ◌+◌, ◌*◌, ◌<◌, ◌≤◌, IfOk, IfErr, OnOk};
ghost use Rattle.std.specs.List.{range_with_len};
ghost use Rattle.diagram_model.specs.Stores.{held, IsSound, Extends};
ghost use Rattle.diagram_ops.specs.Diagrams.{IsConsistent};
ghost use Rattle.slice_quad.specs.Identities.{IsIdentity};
ghost use Rattle.slice_quad.specs.IdentityBuilt.{IsDiagonalFrom};
ghost use Rattle.slice_quad.specs.Started.{StartStopIs};

use crate::basis::four_of;
use crate::quad::SliceQuad;
use diagram_ops::Diagrams;
use node_store::{FALSE, Node, Store, StoreStop, TRUE};
use std::alloc::Global;
use std::marker::Brand;
use std::sync::ledger::{Blank, Ledger};
use steps::Steps;

/// The identity matrix on so many qubits, over √2 to the power 0: of qubit q, variable 2q is the row's and variable
/// 2q + 1 the column's. The kept function is "row equals column".
///
/// Makes exactly three nodes a qubit. `Full` comes exactly where that is more than the limit.
pub fn identity(alloc: Global, d: &mut Diagrams, qubits: u8) -> Result<SliceQuad, StoreStop>
    requires empty { held d.old.store ≡ 0 }
    requires order { d.old.store.order ≡ range_with_len 0 (2 * qubits) }
    ensures identity { IfOk result (IsIdentity d.new.store qubits) }
    ensures full { IfErr result (StartStopIs d.old.store (3 * qubits)) }
    ensures room { OnOk result (3 * qubits ≤ d.old.store.limit) }
    ensures extends { Extends d.old.store d.new.store }
    ensures capacity { d.new.cache.capacity ≡ d.old.cache.capacity }
    ensures sound { IsConsistent d.new }
{
    identity_counted::<Brand>(alloc, d, qubits, Blank::new(1))
}

fn identity_counted<L: Ledger>(
    alloc: Global,
    d: &mut Diagrams,
    qubits: u8,
    blank: Blank,
) -> Result<SliceQuad, StoreStop>
    requires empty { held d.old.store ≡ 0 }
    requires order { d.old.store.order ≡ range_with_len 0 (2 * qubits) }
    requires name { blank.name ≡ L.name }
    requires parts { blank.parts ≡ L.parts }
    requires some { 0 < blank.parts }
    ensures identity { IfOk result (IsIdentity d.new.store qubits) }
    ensures full { IfErr result (StartStopIs d.old.store (3 * qubits)) }
    ensures room { OnOk result (3 * qubits ≤ d.old.store.limit) }
    ensures extends { Extends d.old.store d.new.store }
    ensures capacity { d.new.cache.capacity ≡ d.old.cache.capacity }
    ensures sound { IsConsistent d.new }
{
    let mut steps = Steps::<L>::new(blank);
    d.forget();
    let node = diagonal_node(d.lend(), qubits, &mut steps)?;
    let four = four_of(alloc, node)?;
    let _cached = d.cached();
    Ok(SliceQuad {
        four,
        exponent: 0,
        kept: node,
    })
}

/// The node that is true where row equals column, made from the last qubit up: three nodes a qubit.
pub fn diagonal_node<L: Ledger>(
    store: &mut Store,
    qubits: u8,
    steps: &mut Steps<L>,
) -> Result<Node, StoreStop>
    requires empty { held store.old ≡ 0 }
    requires order { store.old.order ≡ range_with_len 0 (2 * qubits) }
    ensures built { IfOk result (λ n. IsDiagonalFrom store.new qubits 0 n.0) }
    ensures full { IfErr result (StartStopIs store.old (3 * qubits)) }
    ensures room { OnOk result (3 * qubits ≤ store.old.limit) }
    ensures extends { Extends store.old store.new }
    ensures sound { IsSound store.new }
{
    let _held = store.held();
    let _vars = store.order().len();
    let mut node = TRUE;
    for i in 0..qubits {
        node = with_qubit(store, qubits, qubits - 1 - i, node, steps)?;
    }
    Ok(node)
}

/// The node that is true where the row of a qubit is its column and `rest`, that of the qubits after it, is true.
fn with_qubit<L: Ledger>(
    store: &mut Store,
    qubits: u8,
    qubit: u8,
    rest: Node,
    steps: &mut Steps<L>,
) -> Result<Node, StoreStop>
    requires few { qubits ≤ 64 }
    requires within { qubit < qubits }
    requires built { IsDiagonalFrom store.old qubits (qubit + 1) rest.0 }
    ensures built { IfOk result (λ n. IsDiagonalFrom store.new qubits qubit n.0) }
    ensures full { IfErr result (StartStopIs store.old (3 * qubits)) }
    ensures extends { Extends store.old store.new }
    ensures sound { IsSound store.new }
{
    let column = 2 * qubit + 1;
    let low = store.make(column, rest, FALSE, steps)?;
    let high = store.make(column, FALSE, rest, steps)?;
    let node = store.make(2 * qubit, low, high, steps)?;
    Ok(node)
}
