//! Vectors of a few gates.
ghost use Rattle.std.specs.Prelude.{◌≡◌, ◌<◌, ◌≤◌, IfOk, length};
ghost use Rattle.slice_quad.specs.Stepping.{IsStepOn, half_of};
ghost use Rattle.slice_quad.specs.Vectors.{Stands};

use bit_lists::Bits;
use diagram_ops::Diagrams;
use gate_set::Entry;
use slice_quad::{SliceQuad, Step, step};
use std::process::Abort;

/// H on a variable.
pub fn hadamard(vars: u8, target: u8) -> Step
    requires vars { vars ≤ 128 }
    requires target { target < vars }
    ensures on { IsStepOn vars result }
    ensures half { half_of result ≤ 1 }
{
    let one = Entry::Omega(0);
    Step::Mix {
        controls: Bits::zeros(vars),
        target,
        rows: [[one, one], [one, Entry::Omega(4)]],
        half: 1,
    }
}

/// T on a variable.
pub fn quarter(vars: u8, target: u8) -> Step
    requires vars { vars ≤ 128 }
    requires target { target < vars }
    ensures on { IsStepOn vars result }
    ensures half { half_of result ≤ 1 }
{
    Step::Mix {
        controls: Bits::zeros(vars),
        target,
        rows: [
            [Entry::Omega(0), Entry::Zero],
            [Entry::Zero, Entry::Omega(1)],
        ],
        half: 0,
    }
}

/// X on a variable where another one is set.
pub fn controlled_flip(vars: u8, control: u8, target: u8) -> Step
    requires vars { vars ≤ 128 }
    requires control { control < vars }
    requires target { target < vars }
    requires apart { control ≡ target → ⊥ }
    ensures on { IsStepOn vars result }
    ensures half { half_of result ≤ 1 }
{
    let mut controls = Bits::zeros(vars);
    controls.set(control, true);
    Step::Mix {
        controls,
        target,
        rows: [
            [Entry::Zero, Entry::Omega(0)],
            [Entry::Omega(0), Entry::Zero],
        ],
        half: 0,
    }
}

/// Applies a step that is not refused.
pub fn apply(rt: &impl Abort, d: &mut Diagrams, q: &mut SliceQuad, s: &Step)
    requires stands { Stands d.old.store q.old }
    requires on { IsStepOn (length d.old.store.order) s.now }
    requires half { half_of s.now ≤ 1 }
    ensures stands { Stands d.new.store q.new }
    ensures order { length d.new.store.order ≡ length d.old.store.order }
{
    assert!(rt; q.exponent < 1000);
    let Ok(()) = step(d, q, s, 128) else {
        panic!(rt; "refused");
    };
}
