//! The circuit of the statements so far with its registers, and statements carried out on it.
ghost use Rattle.std.specs.Prelude.{◌≡◌, ◌+◌, ◌*◌, ◌≤◌, ◌<◌, ◌++◌, ◌∷◌, [], ℕ, length, replicate, false, cond, Some, None, IfOk, OnOk};
ghost use Rattle.gate_set.specs.Circuits.{IsCircuit};
ghost use Rattle.qasm_lex.specs.Symbols.{decimal, number_below};
ghost use Rattle.qasm_lex.specs.Angles.{given_by};
ghost use Rattle.qasm_forms.specs.Shown.{shown};
ghost use Rattle.qasm_gates.specs.Gates.{gate_in};
ghost use Rattle.qasm_gates.specs.Private.Proper.{AreQubits};
ghost use Rattle.qasm_gates.specs.Private.Views.{view_of, IsGates, IsKnown, callee_gate};
ghost use Rattle.qasm_reader.specs.Acts.{place_count, qubit_at, qubits_at, qubits_of};
ghost use Rattle.qasm_reader.specs.Calls.{listed};
ghost use Rattle.qasm_reader.specs.Reasons.{is_declared, no_size};
ghost use Rattle.qasm_reader.specs.declared.reason.Why.TheVariants.{Redeclared};
ghost use Rattle.qasm_reader.specs.Private.Seen.{seen_target, seen_targets, seen_find, seen_both};
ghost use Rattle.qasm_reader.specs.Private.Meanings.{meaning_of};
ghost use Rattle.qasm_reader.specs.Private.Scope.{both_found};
ghost use Rattle.qasm_reader.specs.Private.Drafts.{
  Draft as Shown,
  IsDraft,
  draft_of,
  outcome,
  include_on,
  qubits_on,
  bits_on,
  barrier_on,
  raised,
  measure_on,
  judged,
  itemed,
  gate_on,
  call_on,
  step,
};

use crate::apply::apply;
use crate::calls::{count_angles, look_up, miscounts, values_of};
use crate::reason::Why;
use crate::registers::{Miss, Register, Registers, Target};
use crate::targets::{places, qubit_at, touches};
use bit_lists::OutOfMemory;
use gate_set::{Circuit, Gate};
use qasm_forms::{Angles, Argument, Arguments, Form};
use qasm_gates::{Callee, Gates, KeyedNames};
use qasm_lex::{Bound, number_below};
use std::alloc::Global;
use std::marker::Model;

/// More than the most places of a register.
const PAST_SIZES: u64 = 1000001;

/// The most gates of a circuit.
const MOST_GATES: u64 = 1000000;

/// The most items of all calls.
const MOST_ITEMS: u64 = 4000000;

/// The circuit of the statements so far, with its registers.
#[derive(Drop)]
pub struct Draft<'a> {
    registers: Registers<'a>,
    qubits: u32,
    gates: Vec<Gate>,
    measured: Vec<bool>,
    items: u32,
}

impl<'a> Model for Draft<'a> {
    ghost use Rattle.qasm_reader.specs.Private.Drafts.{Draft as Shown};

    ghost Value = { Shown };

    ghost view = { λ d. record { registers = d.registers; qubits = d.qubits; gates = d.gates.items; measured = d.measured.items; items = d.items } };
}

// The size of a register, where it is one.
fn size_of(digits: &[u8]) -> Option<u32>
    ensures { result ≡ cond (no_size (decimal digits.now)) None (Some (decimal digits.now)) }
{
    let size = number_below(digits, PAST_SIZES)? as u32;
    if size == 0 { None } else { Some(size) }
}

// How many places an argument has.
fn place_count(target: Target) -> u32
    ensures { result ≡ place_count (seen_target target ∷ []) }
{
    match target.index {
        None => target.register.size,
        Some(_) => 1,
    }
}

// More flags, none of them raised.
#[tactic(auto, using(crate::proofs::Applied::replicate_next))]
fn add_flags(flags: &mut Vec<bool>, count: u32) -> Result<(), OutOfMemory>
    ensures { OnOk result (flags.new.items ≡ flags.old.items ++ replicate count false) }
{
    for _step in 0..count {
        flags.push(false)?;
    }
    Ok(())
}

// Raises the flags of an argument's qubits.
fn raise(flags: &mut [bool], target: Target)
    requires { (place : ℕ) → place < place_count (seen_target target ∷ []) → qubit_at place (seen_target target) < length flags.old }
    ensures { flags.new ≡ raised flags.old (qubits_of (seen_target target)) }
{
    for place in 0..place_count(target) {
        flags[qubit_at(target, place) as usize] = true;
    }
}

fn include(text: &[u8]) -> Option<Why>
    ensures { (d : Shown) → outcome result d ≡ include_on d text.now }
{
    if text == b"\"qelib1.inc\"".as_slice() {
        None
    } else {
        Some(Why::OutOfProfile)
    }
}

// Both of two that are found. An unknown register is told first.
fn both(source: Result<Target, Miss>, sink: Result<Target, Miss>) -> Result<(Target, Target), Miss>
    ensures { seen_both result ≡ both_found (seen_find source) (seen_find sink) }
{
    match source {
        Ok(from) => match sink {
            Ok(to) => Ok((from, to)),
            Err(miss) => Err(miss),
        },
        Err(Miss::Unknown) => Err(Miss::Unknown),
        Err(Miss::Beyond) => match sink {
            Ok(_) => Err(Miss::Beyond),
            Err(miss) => Err(miss),
        },
    }
}

impl<'a> Draft<'a> {
    /// No statements. Names are hashed so.
    pub fn new(alloc: Global, names: KeyedNames) -> Draft<'a>
        ensures { result ≡ draft_of [] }
    {
        Draft {
            registers: Registers::new(alloc, names),
            qubits: 0,
            gates: Vec::new(alloc),
            measured: Vec::new(alloc),
            items: 0,
        }
    }

    /// The circuit.
    pub fn circuit(self) -> Circuit
        requires { IsDraft self }
        ensures circuit { result ≡ record { qubits = self.entry.qubits; gates = self.entry.gates; measured = self.entry.measured } }
        ensures sound { IsCircuit result }
    {
        Circuit {
            qubits: self.qubits as u8,
            gates: self.gates,
            measured: self.measured,
        }
    }

    // That the name is declared, or this reason.
    fn unless_declared(&self, name: &[u8], why: Why) -> Why
        ensures { result ≡ cond (is_declared self.now.registers name.now) Redeclared why }
    {
        match self.registers.get(name) {
            Some(_) => Why::Redeclared,
            None => why,
        }
    }

    // Declares qubits, with numbers that follow those before.
    fn declare_qubits(
        &mut self,
        name: &'a [u8],
        digits: &[u8],
        limit: u8,
    ) -> Result<Option<Why>, OutOfMemory>
        requires { IsDraft self.old }
        ensures { IfOk result (λ why. outcome why self.new ≡ qubits_on limit self.old name.now (decimal digits.now)) }
    {
        let Some(size) = size_of(digits) else {
            return Ok(Some(self.unless_declared(name, Why::IndexOutOfRange)));
        };
        if self.qubits + size > u32::from(limit) {
            return Ok(Some(self.unless_declared(name, Why::TooManyQubits)));
        }
        let place = Register {
            quantum: true,
            first: self.qubits,
            size,
        };
        if !self.registers.declare(name, place)? {
            return Ok(Some(Why::Redeclared));
        }
        add_flags(&mut self.measured, size)?;
        self.qubits += size;
        Ok(None)
    }

    fn declare_bits(&mut self, name: &'a [u8], digits: &[u8]) -> Result<Option<Why>, OutOfMemory>
        ensures { IfOk result (λ why. outcome why self.new ≡ bits_on self.old name.now (decimal digits.now)) }
    {
        let Some(size) = size_of(digits) else {
            return Ok(Some(self.unless_declared(name, Why::IndexOutOfRange)));
        };
        let place = Register {
            quantum: false,
            first: 0,
            size,
        };
        if self.registers.declare(name, place)? {
            Ok(None)
        } else {
            Ok(Some(Why::Redeclared))
        }
    }

    fn barrier(&self, arguments: Arguments<'_>) -> Option<Why>
        ensures { outcome result self.now ≡ barrier_on self.now arguments.entry }
    {
        let found = look_up(&self.registers, arguments);
        if found.unknown {
            Some(Why::UnknownRegister)
        } else if found.beyond {
            Some(Why::IndexOutOfRange)
        } else {
            None
        }
    }

    fn measure(&mut self, from: &Argument<'_>, to: &Argument<'_>) -> Option<Why>
        requires { IsDraft self.old }
        ensures { outcome result self.new ≡ measure_on self.old from.now to.now }
    {
        let source = self.registers.find(from, true);
        let sink = self.registers.find(to, false);
        match both(source, sink) {
            Err(miss) => Some(miss.why()),
            Ok((source, sink)) => {
                if place_count(source) != place_count(sink) {
                    return Some(Why::SizesDiffer);
                }
                raise(&mut self.measured, source);
                None
            }
        }
    }

    // Adds the gates of a call whose angles have these values.
    fn call_with(
        &mut self,
        alloc: Global,
        known: &Gates<'_>,
        callee: Callee,
        bound: &[Bound],
        targets: &[Target],
        items: u32,
    ) -> Result<Option<Why>, OutOfMemory>
        requires draft { IsDraft self.old }
        requires gates { IsGates known.now }
        requires callee { IsKnown known.now callee }
        requires counted { length bound.now ≡ (callee_gate known.now callee).angles }
        requires few { length targets.now ≤ 64 }
        requires few_items { self.old.items + items ≤ 4000000 }
        requires placed { (place : ℕ) → place < place_count (seen_targets targets.now) → AreQubits (callee_gate known.now callee).arity (qubits_at (seen_targets targets.now) place) }
        ensures { IfOk result (λ why. outcome why self.new ≡ judged self.old items ((callee_gate known.now callee).means (given_by bound.now)) (seen_targets targets.now)) }
    {
        match known.judge(alloc, callee, bound)? {
            Err(refusal) => Ok(Some(Why::AngleRefused(refusal))),
            Ok(None) => Ok(Some(Why::OffGrid)),
            Ok(Some(times)) => {
                if touches(&self.measured, targets) {
                    return Ok(Some(Why::Measured));
                }
                if self.gates.len() as u64 + u64::from(times) * u64::from(places(targets))
                    > MOST_GATES
                {
                    return Ok(Some(Why::TooManyGates));
                }
                apply(alloc, known, callee, bound, targets, &mut self.gates)?;
                self.items += items;
                Ok(None)
            }
        }
    }

    // Calls a gate on targets that are different at each place.
    fn call_on(
        &mut self,
        alloc: Global,
        known: &Gates<'_>,
        callee: Callee,
        angles: Option<Angles<'_>>,
        targets: &[Target],
    ) -> Result<Option<Why>, OutOfMemory>
        requires draft { IsDraft self.old }
        requires gates { IsGates known.now }
        requires callee { IsKnown known.now callee }
        requires counted { length (listed angles) ≡ (callee_gate known.now callee).angles }
        requires few { length targets.now ≤ 64 }
        requires placed { (place : ℕ) → place < place_count (seen_targets targets.now) → AreQubits (callee_gate known.now callee).arity (qubits_at (seen_targets targets.now) place) }
        ensures { IfOk result (λ why. outcome why self.new ≡ itemed self.old ((callee_gate known.now callee).items * place_count (seen_targets targets.now)) (meaning_of (callee_gate known.now callee) (listed angles.entry)) (seen_targets targets.now)) }
    {
        let (_, items) = known.counts(callee);
        let items = u64::from(items) * u64::from(places(targets));
        if u64::from(self.items) + items > MOST_ITEMS {
            return Ok(Some(Why::TooManyItems));
        }
        match values_of(alloc, angles)? {
            Err(refusal) => Ok(Some(Why::AngleRefused(refusal))),
            Ok(bound) => self.call_with(alloc, known, callee, &bound, targets, items as u32),
        }
    }

    // Calls a gate.
    fn call_gate(
        &mut self,
        alloc: Global,
        known: &Gates<'_>,
        callee: Callee,
        angles: Option<Angles<'_>>,
        arguments: Arguments<'_>,
    ) -> Result<Option<Why>, OutOfMemory>
        requires draft { IsDraft self.old }
        requires gates { IsGates known.now }
        requires callee { IsKnown known.now callee }
        ensures { IfOk result (λ why. outcome why self.new ≡ gate_on self.old (callee_gate known.now callee) (listed angles.entry) arguments.entry) }
    {
        let found = look_up(&self.registers, arguments);
        if found.unknown {
            return Ok(Some(Why::UnknownRegister));
        }
        if found.beyond {
            return Ok(Some(Why::IndexOutOfRange));
        }
        if miscounts(known, callee, found.count, count_angles(&angles)) {
            return Ok(Some(Why::WrongCount));
        }
        if found.differ {
            return Ok(Some(Why::SizesDiffer));
        }
        if found.repeats() {
            return Ok(Some(Why::RepeatedQubit));
        }
        self.call_on(alloc, known, callee, angles, found.targets.as_slice())
    }

    fn call(
        &mut self,
        alloc: Global,
        known: &Gates<'_>,
        name: &[u8],
        angles: Option<Angles<'_>>,
        arguments: Arguments<'_>,
    ) -> Result<Option<Why>, OutOfMemory>
        requires draft { IsDraft self.old }
        requires gates { IsGates known.now }
        ensures { IfOk result (λ why. outcome why self.new ≡ call_on self.old (gate_in (view_of known.now).definitions name.now) (listed angles.entry) arguments.entry) }
    {
        match known.find(name) {
            None => Ok(Some(Why::UnknownName)),
            Some(callee) => self.call_gate(alloc, known, callee, angles, arguments),
        }
    }

    /// Carries out a statement. Why it is refused, if it is.
    pub fn carry_out(
        &mut self,
        alloc: Global,
        known: &Gates<'a>,
        form: Form<'a>,
        limit: u8,
    ) -> Result<Option<Why>, OutOfMemory>
        requires draft { IsDraft self.old }
        requires gates { IsGates known.now }
        ensures { IfOk result (λ why. outcome why self.new ≡ step limit self.old (view_of known.now).definitions (shown form.entry)) }
    {
        match form {
            Form::Version => Ok(None),
            Form::Include(text) => Ok(include(text)),
            Form::Qubits(name, size) => self.declare_qubits(name, size, limit),
            Form::Bits(name, size) => self.declare_bits(name, size),
            Form::Barrier(arguments) => Ok(self.barrier(arguments)),
            Form::Measure(from, to) => Ok(self.measure(&from, &to)),
            Form::Call(name, angles, arguments) => {
                self.call(alloc, known, name, angles, arguments)
            }
            Form::Definition(_, _, _, _) | Form::LeftOut(_, _, _) => Ok(Some(Why::OutOfProfile)),
        }
    }
}
