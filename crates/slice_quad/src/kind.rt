//! What a step does.
ghost use Rattle.std.specs.Prelude.{◌≡◌, IsTrue};
ghost use Rattle.slice_quad.specs.Mix.{Vector};
ghost use Rattle.slice_quad.specs.Stepping.{half_of, stepped, target_with};

use crate::gate::Target;
use bit_lists::Bits;
use gate_set::Entry;

/// One gate on a vector: a matrix on a target, or an exchange of two variables, where controls hold.
///
/// `controls` has a true bit for each controlling variable. The entry in a row and a column of the matrix
/// is `rows[row][column]`, where 1 stands for a target that is set, and `half`, which is 0 or 1, is how many factors
/// 1/√2 the matrix has beside its entries: where it is 1, the entries where some control is false are multiplied by √2.
#[derive(Clone, Copy)]
pub enum Step {
    Mix {
        controls: Bits,
        target: u8,
        rows: [[Entry; 2]; 2],
        half: u8,
    },
    Exchange {
        controls: Bits,
        first: u8,
        second: u8,
    },
}

impl Step {
    /// How many factors 1/√2 it has beside the entries of its matrix.
    pub fn half(&self) -> u8
        ensures { result ≡ half_of self.now }
    {
        match self {
            Step::Mix { half, .. } => *half,
            Step::Exchange { .. } => 0,
        }
    }

    /// Whether its matrix is the unit matrix, whatever the controls.
    pub fn is_unit(&self) -> bool
        ensures unit { IsTrue result → (v : Vector) → stepped self.now v ≡ v }
        ensures half { IsTrue result → half_of self.now ≡ 0 }
    {
        match self {
            Step::Mix {
                controls,
                target,
                rows,
                half,
            } => *half == 0 && target_of(*controls, *target, *rows, *half).is_unit(),
            Step::Exchange { .. } => false,
        }
    }
}

/// A matrix on a target, by its rows.
pub fn target_of(controls: Bits, target: u8, rows: [[Entry; 2]; 2], half: u8) -> Target
    ensures { result ≡ target_with controls target rows half }
{
    Target {
        controls,
        target,
        low_low: rows[0][0],
        low_high: rows[0][1],
        high_low: rows[1][0],
        high_high: rows[1][1],
        rooted: half == 1,
    }
}
