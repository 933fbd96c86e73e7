//! Marking from the roots, and freeing the rest.
ghost use Rattle.std.specs.Prelude.{◌≡◌, ℕ, ◌+◌, map, length, [], OnOk, OnErr, IfOk};
ghost use Rattle.std.specs.List.{All};
ghost use Rattle.diagram_model.specs.Size.{size};
ghost use Rattle.diagram_model.specs.Stores.{held, IsLive, KeepsFunctions, function_of};
ghost use Rattle.diagram_ops.specs.Diagrams.{IsConsistent};
ghost use Rattle.node_reclaim.specs.Reclaims.{KeepsReached};

use bit_lists::OutOfMemory;
use diagram_ops::Diagrams;
use node_store::{Node, Store};
use std::alloc::Global;
use std::mem;

/// Frees the nodes that are not reached from the roots, empties the cache, and answers how many nodes
/// were freed. The others keep their numbers and functions.
///
/// Takes the time of the reached nodes, a search for each node that is freed, and one pass over the
/// numbers and one over the tables; a byte for each number while it runs. Every entry of the cache goes,
/// also one that names reached nodes alone.
pub fn reclaim(alloc: Global, d: &mut Diagrams, roots: &[Node]) -> Result<u32, OutOfMemory>
    requires { All (λ n. IsLive d.old.store n.0) roots.now }

    // What is left.
    ensures reached { OnOk result (KeepsReached d.old.store d.new.store roots.now) }
    ensures functions { OnOk result (KeepsFunctions d.new.store d.old.store) }
    ensures roots { OnOk result (All (λ n. IsLive d.new.store n.0) roots.now) }
    ensures size { OnOk result (held d.new.store ≡ size (length d.old.store.order) d.old.store.order (map (λ n. function_of d.old.store n.0) roots.now)) }
    ensures freed { IfOk result (λ k. k + held d.new.store ≡ held d.old.store) }
    ensures cache { OnOk result (d.new.cache.entries ≡ []) }

    // What stays.
    ensures order { d.new.store.order ≡ d.old.store.order }
    ensures limit { d.new.store.limit ≡ d.old.store.limit }
    ensures made { d.new.store.made ≡ d.old.store.made }
    ensures capacity { d.new.cache.capacity ≡ d.old.cache.capacity }
    ensures refused { OnErr result (d.new ≡ d.old) }
    ensures sound { IsConsistent d.new }
{
    let _cached = d.cached();
    let empty = Store::new(alloc, 0, 1)?;
    let reached = d.store().reached(roots)?;
    d.forget();
    let mut slots = mem::replace(d.lend(), empty).unseal();
    let freed = slots.keep_only(&reached);
    let _old = mem::replace(d.lend(), slots.seal());
    let _cached = d.cached();
    Ok(freed)
}
