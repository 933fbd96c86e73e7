//! Steps down from nodes: heights, the top variable, and what is left once a variable is fixed.
ghost use Rattle.std.specs.Prelude.{◌≡◌, ℕ, ◌<◌, ◌≤◌, IfSome, IfNone};
ghost use Rattle.diagram_model.specs.Nodes.{follow};
ghost use Rattle.diagram_model.specs.Stores.{IsLive, IsSound, IsTop, depth};

use crate::node::Node;
use crate::store::Store;

impl Store {
    /// The topmost of the variables of three nodes, or None where all are constants. Constant time.
    pub(crate) fn top_of(&self, f: Node, g: Node, h: Node) -> Option<u8>
        requires f { IsLive self.now f.0 }
        requires g { IsLive self.now g.0 }
        requires h { IsLive self.now h.0 }
        ensures top { IfSome result (IsTop self.now f.0 g.0 h.0) }
        ensures constants { IfNone result ((f.0 < 2) × (g.0 < 2) × (h.0 < 2)) }
        ensures sound { IsSound self.now }
    {
        let order = self.order_ref();
        let height = self.height(f).max(self.height(g)).max(self.height(h));
        if height == 0 {
            return None;
        }
        Some(order.at(order.len() - height))
    }

    /// The node that is left of `n` once a variable is fixed: its child where it has the variable, and
    /// else the node itself.
    pub(crate) fn follow(&self, var: u8, bit: bool, n: Node) -> Node
        ensures { result.0 ≡ follow self.now.slots var bit n.0 }
    {
        match self.parts(n.0) {
            Some(parts) => {
                if parts.var == var {
                    Node(parts.child(bit))
                } else {
                    n
                }
            }
            None => n,
        }
    }

    /// How many nodes there are at most on a way down from `n`: the variables from its own on.
    fn height(&self, n: Node) -> u8
        requires { IsLive self.now n.0 }
        ensures { result ≡ depth self.now n.0 }
    {
        match self.parts(n.0) {
            Some(parts) => {
                let order = self.order_ref();
                order.len() - order.place_of(parts.var)
            }
            None => 0,
        }
    }
}
