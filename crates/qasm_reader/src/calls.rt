//! Calls of gates: what their arguments mean, and what is told of them before anything is done.
ghost use Rattle.std.specs.Prelude.{◌≡◌, ◌≤◌, ◌||◌, ℕ, List, true, false, min, take, nat_lt, length, map, Some, IfOk, option_map};
ghost use Rattle.std.specs.Option.{option_or};
ghost use Rattle.std.specs.List.{list_any};
ghost use Rattle.qasm_gates.specs.Private.Counts.{seen_values};
ghost use Rattle.qasm_gates.specs.Private.Views.{IsGates, IsKnown, callee_gate};
ghost use Rattle.qasm_reader.specs.Acts.{Target as Meant, targets, wholes};
ghost use Rattle.qasm_reader.specs.Calls.{listed};
ghost use Rattle.qasm_reader.specs.Reasons.{is_unknown, is_beyond};
ghost use Rattle.qasm_reader.specs.Private.Seen.{seen_target, seen_targets, seen_find};
ghost use Rattle.qasm_reader.specs.Private.Meanings.{outcomes_in};
ghost use Rattle.qasm_reader.specs.Private.Scope.{seen_found, noted, next_count, many, other_size, differ, repeats, wrong_counts};

use crate::registers::{Miss, Registers, Target};
use crate::targets::repeats;
use arrayvec::ArrayVec;
use bit_lists::OutOfMemory;
use qasm_forms::{Angles, Arguments};
use qasm_gates::{Callee, Gates};
use qasm_lex::{AngleRefusal, Bound};
use std::alloc::Global;

/// More arguments, or angles, than any gate has.
const MANY: u64 = 4294967296;

/// What the arguments of a statement mean: the first 64 of them, which are as many as qubits can be, how many there are, counted up to 2^32, whether some miss, the size of the
/// first that is a whole register, and whether another one differs from it.
#[derive(Drop)]
pub struct Found {
    pub targets: ArrayVec<Target, 64>,
    pub count: u64,
    pub unknown: bool,
    pub beyond: bool,
    pub size: Option<u32>,
    pub differ: bool,
}

/// The values of the angles of a call, or the first refusal.
pub type Values = Result<Vec<Bound>, AngleRefusal>;

// One more, counted up to 2^32.
fn next_count(count: u64) -> u64
    ensures { result ≡ next_count count }
{
    if count < MANY { count + 1 } else { count }
}

// The size of a whole register.
fn size_of(target: Target) -> Option<u32>
    ensures { result ≡ (seen_target target).size }
{
    match target.index {
        None => Some(target.register.size),
        Some(_) => None,
    }
}

fn other_size(size: Option<u32>, more: Option<u32>) -> bool
    ensures { result ≡ other_size size more }
{
    match size {
        Some(n) => match more {
            Some(m) => m != n,
            None => false,
        },
        None => false,
    }
}

impl Found {
    // One argument more that means something.
    fn keep(&mut self, target: Target)
        requires { length self.old.targets.items ≤ 64 }
        ensures noted { seen_found self.new ≡ noted (seen_found self.old) (Ok (seen_target target)) }
        ensures few { length self.new.targets.items ≤ 64 }
    {
        let size = size_of(target);
        self.differ = self.differ || other_size(self.size, size);
        self.size = self.size.or(size);
        if self.targets.len() < 64 {
            self.targets.push(target);
        }
        self.count = next_count(self.count);
    }

    // One argument more.
    fn note(&mut self, found: Result<Target, Miss>)
        requires { length self.old.targets.items ≤ 64 }
        ensures noted { seen_found self.new ≡ noted (seen_found self.old) (seen_find found) }
        ensures few { length self.new.targets.items ≤ 64 }
    {
        match found {
            Ok(target) => self.keep(target),
            Err(Miss::Unknown) => {
                self.unknown = true;
                self.count = next_count(self.count);
            }
            Err(Miss::Beyond) => {
                self.beyond = true;
                self.count = next_count(self.count);
            }
        }
    }

    /// Whether one of the repeated calls has a qubit twice. Of more than 64 arguments of one size one has.
    pub fn repeats(&self) -> bool
        ensures { result ≡ nat_lt 64 self.now.count || repeats (seen_targets self.now.targets.items) }
    {
        self.count > 64 || repeats(self.targets.as_slice())
    }
}

/// What arguments mean as qubits. Each is looked up once.
pub fn look_up(registers: &Registers<'_>, arguments: Arguments<'_>) -> Found
    ensures unknown { result.unknown ≡ list_any (is_unknown registers.now true) arguments.entry }
    ensures beyond { result.unknown ≡ false → result.beyond ≡ list_any (is_beyond registers.now) arguments.entry }
    ensures count { result.count ≡ min (length arguments.entry) many }
    ensures means { result.unknown ≡ false → result.beyond ≡ false → (ts : List Meant) × (targets registers.now arguments.entry ≡ Some ts) × (seen_targets result.targets.items ≡ take 64 ts) × (result.differ ≡ differ (wholes ts)) }
{
    let mut rest = arguments.ahead();
    let mut found = Found {
        targets: ArrayVec::new(),
        count: 0,
        unknown: false,
        beyond: false,
        size: None,
        differ: false,
    };
    while let Some(argument) = rest.next() {
        found.note(registers.find(&argument, true));
    }
    found
}

// How many angles are left, counted up to 2^32.
#[tactic(auto, using(crate::proofs::Looking::counted_more))]
fn count_rest(angles: Angles<'_>) -> u64
    ensures { result ≡ min (length angles.entry) many }
{
    let mut rest = angles.ahead();
    let mut count = 0;
    while let Some(_) = rest.next() {
        count = next_count(count);
    }
    count
}

/// How many angles a call has, counted up to 2^32.
pub fn count_angles(angles: &Option<Angles<'_>>) -> u64
    ensures { result ≡ min (length (listed angles.now)) many }
{
    match angles {
        Some(all) => count_rest(all.ahead()),
        None => 0,
    }
}

/// Whether a gate has other counts of arguments and angles than these, which are counted up to 2^32.
pub fn miscounts(gates: &Gates<'_>, callee: Callee, arguments: u64, angles: u64) -> bool
    requires gates { IsGates gates.now }
    requires known { IsKnown gates.now callee }
    ensures { (n k : ℕ) → arguments ≡ min n many → angles ≡ min k many → result ≡ wrong_counts (callee_gate gates.now callee) n k }
{
    arguments != u64::from(gates.arity(callee)) || angles != u64::from(gates.angle_count(callee))
}

// The values of angles, or the first refusal.
fn each_value(alloc: Global, angles: Angles<'_>) -> Result<Values, OutOfMemory>
    ensures { IfOk result (λ v. seen_values v ≡ outcomes_in angles.entry) }
{
    let mut out = Vec::new(alloc);
    let mut rest = angles.ahead();
    while let Some(angle) = rest.next() {
        match angle.value() {
            Ok(value) => out.push(Bound {
                from: 0,
                to: 0,
                value,
            })?,
            Err(refusal) => return Ok(Err(refusal)),
        }
    }
    Ok(Ok(out))
}

/// The values of the angles of a call, or the first refusal.
pub fn values_of(alloc: Global, angles: Option<Angles<'_>>) -> Result<Values, OutOfMemory>
    ensures { IfOk result (λ v. seen_values v ≡ outcomes_in (listed angles.entry)) }
{
    match angles {
        Some(all) => each_value(alloc, all),
        None => Ok(Ok(Vec::new(alloc))),
    }
}
