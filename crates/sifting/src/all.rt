//! Sifting of all variables.
ghost use Rattle.std.specs.Prelude.{◌≡◌, ◌<◌, length, [], OnOk, IfOk};
ghost use Rattle.std.specs.List.{All};
ghost use Rattle.diagram_model.specs.Stores.{IsLive};
ghost use Rattle.diagram_ops.specs.Diagrams.{IsConsistent};
ghost use Rattle.sifting.specs.Answers.{AreInTurn, last_order};
ghost use Rattle.sifting.specs.Sifts.{KeepsRoots, IsTidy, functions_of};

use crate::shifts::tidy;
use crate::sift::{Sifted, sift_variable};
use bit_lists::OutOfMemory;
use diagram_ops::Diagrams;
use node_store::Node;
use std::alloc::Global;

/// Sifts the variables 0, 1, 2 and so on in turn, each in the order that the one before left, with one
/// answer each.
pub fn sift_all(alloc: Global, d: &mut Diagrams, roots: &[Node]) -> Result<Vec<Sifted>, OutOfMemory>
    requires { All (λ n. IsLive d.old.store n.0) roots.now }

    // The answers.
    ensures count { IfOk result (λ rs. length rs.items ≡ length d.old.store.order) }
    ensures turns { IfOk result (λ rs. AreInTurn (functions_of d.old.store roots.now) d.old.store.limit d.old.store.order 0 rs.items) }
    ensures order { IfOk result (λ rs. d.new.store.order ≡ last_order d.old.store.order rs.items) }

    // What stays, and what is held.
    ensures roots { KeepsRoots d.old.store d.new.store roots.now }
    ensures tidy { OnOk result (IsTidy d.new.store roots.now) }
    ensures empty { OnOk result (d.new.cache.entries ≡ []) }
    ensures capacity { d.new.cache.capacity ≡ d.old.cache.capacity }
    ensures sound { IsConsistent d.new }
{
    let all = sift_each(alloc, d, roots);
    let _cached = d.cached();
    let all = all?;
    Ok(all)
}

/// `sift_all`, one variable after the other.
fn sift_each(alloc: Global, d: &mut Diagrams, roots: &[Node]) -> Result<Vec<Sifted>, OutOfMemory>
    requires live { All (λ n. IsLive d.old.store n.0) roots.now }
    ensures count { IfOk result (λ rs. length rs.items ≡ length d.old.store.order) }
    ensures turns { IfOk result (λ rs. AreInTurn (functions_of d.old.store roots.now) d.old.store.limit d.old.store.order 0 rs.items) }
    ensures order { IfOk result (λ rs. d.new.store.order ≡ last_order d.old.store.order rs.items) }
    ensures roots { KeepsRoots d.old.store d.new.store roots.now }
    ensures tidy { OnOk result (IsTidy d.new.store roots.now) }
    ensures empty { OnOk result (d.new.cache.entries ≡ []) }
    ensures capacity { d.new.cache.capacity ≡ d.old.cache.capacity }
{
    tidy(alloc, d, roots)?;
    let vars = d.store().order().len();
    let mut all = Vec::new(alloc);
    for var in 0..vars {
        let sifted = sift_variable(alloc, d, roots, var)?;
        all.push(sifted)?;
    }
    Ok(all)
}
