//! Kinds of gates.
ghost use Rattle.std.specs.Prelude.{◌≡◌, ◌≤◌};
ghost use Rattle.gate_set.specs.Matrix.{arity_of};

/// What a gate does. `RxP` and `RxM` are the quarter turns about the x axis, `RyP` and `RyM` those about the y axis, and `Phase(m)` turns
/// the amplitude of 1 by ω to the power m, at most the seventh.
#[derive(Clone, Copy, PartialEq, Eq, Debug)]
pub enum Kind {
    Id,
    X,
    Y,
    Z,
    H,
    S,
    Sdg,
    T,
    Tdg,
    RxP,
    RxM,
    RyP,
    RyM,
    Cx,
    Cz,
    Swap,
    Ccx,
    Cswap,
    Phase(u8),
}

impl Kind {
    /// How many qubits a gate of this kind is on.
    pub fn arity(self) -> u8
        ensures value { result ≡ arity_of self }
        ensures some { 1 ≤ result }
        ensures few { result ≤ 3 }
    {
        self.row().arity()
    }
}
