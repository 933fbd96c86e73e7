//! What a held node consists of.
ghost use Rattle.std.specs.Prelude.{◌≡◌};
ghost use Rattle.diagram_model.specs.Nodes.{child};

/// The variable of a held node, and the numbers of its two children.
#[derive(Clone, Copy, Debug, PartialEq, Eq, Drop)]
pub struct Parts {
    pub var: u8,
    pub low: u32,
    pub high: u32,
}

impl Parts {
    /// The child for a value of the variable: `high` where it is true.
    pub fn child(self, bit: bool) -> u32
        ensures { result ≡ child bit self }
    {
        if bit { self.high } else { self.low }
    }
}
