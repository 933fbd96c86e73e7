//! Four integers, one a coordinate.
ghost use Rattle.std.specs.Prelude.{◌≡◌};
ghost use Rattle.slice_quad.specs.Fours.{nodes_of};

use crate::coord::Coord;
use slice_vec::Slices;

/// An integer for each coordinate.
#[derive(Drop)]
pub struct Four {
    pub a: Slices,
    pub b: Slices,
    pub c: Slices,
    pub d: Slices,
}

impl Four {
    /// The integer of a coordinate.
    pub fn get(&self, z: Coord) -> &Slices
        ensures { result.now ≡ nodes_of self.now z }
    {
        match z {
            Coord::A => &self.a,
            Coord::B => &self.b,
            Coord::C => &self.c,
            Coord::D => &self.d,
        }
    }
}
