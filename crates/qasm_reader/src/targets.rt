//! The tests of a call on what its arguments mean.
ghost use Rattle.std.specs.Prelude.{◌≡◌, ◌<◌, ◌≤◌, ◌+◌, ◌∷◌, [], map, false};
ghost use Rattle.std.specs.List.{list_any};
ghost use Rattle.qasm_gates.specs.Gates.{up_to};
ghost use Rattle.qasm_reader.specs.Acts.{qubit_at, qubits_at, place_count, is_among};
ghost use Rattle.qasm_reader.specs.Private.Seen.{seen_target, seen_targets};
ghost use Rattle.qasm_reader.specs.Private.Scope.{has_twice, repeats, flagged, touches};

use crate::registers::Target;

/// The qubit of an argument at a place.
pub fn qubit_at(target: Target, place: u32) -> u64
    ensures { result ≡ qubit_at place (seen_target target) }
{
    match target.index {
        Some(index) => u64::from(target.register.first) + u64::from(index),
        None => u64::from(target.register.first) + u64::from(place),
    }
}

/// Whether the qubit is one of theirs at the place.
fn has_qubit(targets: &[Target], place: u32, qubit: u64) -> bool
    ensures { result ≡ is_among (qubits_at (seen_targets targets.now) place) qubit }
{
    let mut rest = targets;
    while let Some((target, after)) = rest.split_first() {
        if qubit == qubit_at(*target, place) {
            return true;
        }
        rest = after;
    }
    false
}

/// Whether they have a qubit twice at the place.
pub fn has_twice(targets: &[Target], place: u32) -> bool
    ensures { result ≡ has_twice (qubits_at (seen_targets targets.now) place) }
{
    let mut rest = targets;
    while let Some((target, after)) = rest.split_first() {
        if has_qubit(after, place, qubit_at(*target, place)) {
            return true;
        }
        rest = after;
    }
    false
}

/// How many places they have together.
pub fn places(targets: &[Target]) -> u32
    ensures { result ≡ place_count (seen_targets targets.now) }
{
    let mut rest = targets;
    while let Some((target, after)) = rest.split_first() {
        match target.index {
            None => return target.register.size,
            Some(_) => rest = after,
        }
    }
    1
}

/// Whether one of the repeated calls has a qubit twice.
pub fn repeats(targets: &[Target]) -> bool
    ensures { result ≡ repeats (seen_targets targets.now) }
{
    for place in 0..places(targets) {
        if has_twice(targets, place) {
            return true;
        }
    }
    false
}

// Whether one of their qubits at the place has a flag.
fn touches_at(flags: &[bool], targets: &[Target], place: u32) -> bool
    ensures { result ≡ list_any (flagged flags.now) (qubits_at (seen_targets targets.now) place) }
{
    let mut rest = targets;
    while let Some((target, after)) = rest.split_first() {
        if has_flag(flags, qubit_at(*target, place)) {
            return true;
        }
        rest = after;
    }
    false
}

fn has_flag(flags: &[bool], qubit: u64) -> bool
    ensures { result ≡ flagged flags.now qubit }
{
    match flags.get(qubit as usize) {
        Some(flag) => *flag,
        None => false,
    }
}

/// Whether one of the repeated calls has a qubit with a flag.
pub fn touches(flags: &[bool], targets: &[Target]) -> bool
    ensures { result ≡ touches flags.now (seen_targets targets.now) }
{
    for place in 0..places(targets) {
        if touches_at(flags, targets, place) {
            return true;
        }
    }
    false
}
