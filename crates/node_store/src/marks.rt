//! Marks on the nodes that are reached from roots.
ghost use Rattle.std.specs.Prelude.{◌≡◌, ℕ, true, length, IfOk};
ghost use Rattle.std.specs.List.{All};
ghost use Rattle.diagram_model.specs.Stores.{IsLive, HasParts};
ghost use Rattle.node_store.specs.Marks.{is_marked, AreReached};
ghost use Rattle.node_store.specs.Marking.{AreUnmarked, HasPlaces, AreClosed, KeepsMarks, MarksReached};

use crate::node::Node;
use crate::store::Store;
use bit_lists::OutOfMemory;
use std::marker::Model;

/// Which nodes are reached from roots: a mark for each number.
#[derive(Drop)]
pub struct Reached {
    marks: Vec<bool>,
}

impl Model for Reached {
    ghost use Rattle.std.specs.Prelude.{Bool, List};

    ghost Value = { List Bool };

    ghost view = { λ a. a.marks.items };
}

impl Reached {
    /// Whether a node is marked.
    pub fn has(&self, n: Node) -> bool
        ensures { result ≡ is_marked self.now n.0 }
    {
        let marks = &self.marks;
        match marks.get(n.0 as usize) {
            Some(mark) => *mark,
            None => false,
        }
    }
}

impl Store {
    /// The held nodes that are reached from the roots. Takes the time of these nodes, and a byte for
    /// each number.
    pub fn reached(&self, roots: &[Node]) -> Result<Reached, OutOfMemory>
        requires { All (λ n. IsLive self.now n.0) roots.now }
        ensures { IfOk result (λ ms. AreReached self.now roots.now ms) }
    {
        let past = self.past();
        let mut marks = vec![in self.alloc(); false; past as usize]?;
        self.mark_all(roots, marks.as_mut_slice());
        Ok(Reached { marks })
    }

    /// Marks the held nodes that are reached from the roots.
    fn mark_all(&self, roots: &[Node], marks: &mut [bool])
        requires live { All (λ n. IsLive self.now n.0) roots.now }
        requires places { HasPlaces self.now marks.old }
        requires none { AreUnmarked marks.old }
        ensures reached { AreReached self.now roots.now marks.new }
        ensures len { length marks.new ≡ length marks.old }
    {
        for root in roots {
            self.mark(root.0, marks);
        }
    }

    /// Marks the held nodes that are reached from `n`. It calls itself no deeper than there are variables.
    fn mark(&self, n: u32, marks: &mut [bool])
        requires live { IsLive self.now n }
        requires places { HasPlaces self.now marks.old }
        requires closed { AreClosed self.now marks.old }
        ensures len { length marks.new ≡ length marks.old }
        ensures closed { AreClosed self.now marks.new }
        ensures there { HasParts self.now n → is_marked marks.new n ≡ true }
        ensures keeps { KeepsMarks marks.old marks.new }
        ensures reached { MarksReached self.now n marks.old marks.new }
    {
        let Some(parts) = self.parts(n) else {
            return;
        };
        if marks[n as usize] {
            return;
        }
        self.mark(parts.low, marks);
        self.mark(parts.high, marks);
        marks[n as usize] = true;
    }
}
