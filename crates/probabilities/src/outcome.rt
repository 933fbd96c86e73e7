//! Outcomes of a measurement: which qubits count, and which states have an outcome.
ghost use Rattle.std.specs.Prelude.{◌≡◌, ◌≤◌, ◌<◌, ◌||◌, true, false, cond, length, slice_index_or, Some, None};
ghost use Rattle.probabilities.specs.Outcomes.{counted, measured_count, fixed_to};

use bit_lists::{Bits, Partial};

/// The qubits that count as measured: those that are, or all where none is.
pub fn counted(measured: &[bool]) -> Bits
    requires { length measured.now ≤ 128 }
    ensures { result ≡ counted measured.now }
{
    let all = !measured.contains(&true);
    let mut flags = Bits::zeros(measured.len() as u8);
    for i in 0..flags.len() {
        flags.set(i, counts(measured[usize::from(i)], all));
    }
    flags
}

fn counts(measured: bool, all: bool) -> bool
    ensures { result ≡ (measured || all) }
{
    measured || all
}

/// How many qubits are measured.
pub fn measured_count(measured: &Bits) -> u8
    ensures { result ≡ measured_count measured.now }
{
    let mut count = 0;
    for i in 0..measured.len() {
        count += u8::from(measured.get(i));
    }
    count
}

/// The states with an outcome: the measured qubits have its bits, in the order of the qubits, and the others are free.
pub fn fixed_to(measured: &Bits, y: &Bits) -> Partial
    requires { length y.now ≡ measured_count measured.now }
    ensures { result ≡ fixed_to measured.now y.now }
{
    let mut p = Partial::free(measured.len());
    let mut j = 0;
    for i in 0..measured.len() {
        let flag = measured.get(i);
        p.fix(i, value_at(flag, y, j));
        j += u8::from(flag);
    }
    p
}

// The bit of the outcome at `j` for a measured qubit, and none for another.
fn value_at(flag: bool, y: &Bits, j: u8) -> Option<bool>
    requires { flag ≡ true → j < length y.now }
    ensures { result ≡ cond flag (Some (slice_index_or y.now j false)) None }
{
    if flag { Some(y.get(j)) } else { None }
}
