//! Circuits read from texts.
ghost use Rattle.std.specs.Prelude.{◌≡◌, ◌≢◌, ◌≤◌, ℕ, List, [], false, nat_eq, length, IfOk, IfErr};
ghost use Rattle.gate_set.specs.Circuits.{IsCircuit};
ghost use Rattle.qasm_gates.specs.declared.gates.Gates.{Gates as Known};
ghost use Rattle.qasm_gates.specs.Private.Views.{IsGates};
ghost use Rattle.qasm_forms.specs.Shown.{shown};
ghost use Rattle.qasm_forms.specs.Private.Fronts.{seen_end};
ghost use Rattle.qasm_reader.specs.Acts.{Act};
ghost use Rattle.qasm_reader.specs.Parts.{Part, last_part, parts_of};
ghost use Rattle.qasm_reader.specs.Reading.{Reading, ReadsAs, Reads, IfRefused, Says, circuit, refusal};
ghost use Rattle.qasm_reader.specs.declared.reason.ReadStop.TheVariants.{Refused};
ghost use Rattle.qasm_reader.specs.Private.Drafts.{IsDraft, Follows, Knows, Concludes, Reached, ended_part, is_version, no_form};

use crate::draft::Draft;
use crate::profile::begins_left;
use crate::reason::{ReadStop, Refusal, Why};
use bit_lists::OutOfMemory;
use gate_set::Circuit;
use qasm_forms::{Closing, Form, Lexemes, read_statement};
use qasm_gates::{Gates, KeyedNames};
use qasm_lex::tokens;
use std::alloc::Global;

/// The circuit that a text of OpenQASM 2.0 reads as, or its refusal: the first reason of its first bad statement.
///
/// A text may have 16,777,216 bytes, and a circuit as many qubits as the limit. The work is linear in the bytes and the gates, on average
/// over the places that names take in a hash table, whose key is drawn from the text. Memory is in proportion to tokens, registers and
/// gates; before a refusal the tokens take most of it, 12 bytes each. It recurses only within an angle, at most 64 tokens deep.
pub fn read(alloc: Global, text: &[u8], limit: u8) -> Result<Circuit, ReadStop>
    requires short { length text.now ≤ 16777216 }
    requires few { limit ≤ 64 }
    ensures circuit { IfOk result (λ c. ReadsAs text.now limit (circuit c)) }
    ensures sound { IfOk result (λ c. IsCircuit c) }
    ensures refused { IfErr result (λ stop. IfRefused stop (λ r. ReadsAs text.now limit (refusal r.statement r.why))) }
    ensures only { (reading : Reading) → ReadsAs text.now limit reading → Says result reading }
{
    let tokens = tokens(alloc, text)?;
    let mut lexemes = Lexemes::new(text, &tokens.list);
    let names = KeyedNames::of_text(text);
    read_statements(alloc, &mut lexemes, names, tokens.bad, limit)
}

fn refused(statement: u32, why: Why) -> ReadStop
    ensures { result ≡ Refused (record { statement = statement; why = why }) }
{
    ReadStop::Refused(Refusal { statement, why })
}

// Statements one after the other, up to the end or to a bad place.
fn read_statements(
    alloc: Global,
    lexemes: &mut Lexemes<'_>,
    names: KeyedNames,
    bad: Option<u32>,
    limit: u8,
) -> Result<Circuit, ReadStop>
    requires short { length lexemes.old ≤ 16777216 }
    requires few { limit ≤ 64 }
    ensures circuit { IfOk result (λ c. Reads limit (parts_of lexemes.old bad) (circuit c)) }
    ensures sound { IfOk result (λ c. IsCircuit c) }
    ensures refused { IfErr result (λ stop. IfRefused stop (λ r. Reads limit (parts_of lexemes.old bad) (refusal r.statement r.why))) }
{
    if lexemes.is_empty() && bad.is_none() {
        return Err(refused(0, Why::NoVersion));
    }
    let mut draft = Draft::new(alloc, names);
    let gates = Gates::new(alloc, names);
    let mut number = 1;
    'statements: loop {
        let Some((mut part, end)) = lexemes.statement() else {
            return read_end(lexemes, bad, number, draft);
        };
        let conclusion = follow(
            alloc,
            &mut part,
            end,
            number == 1,
            limit,
            &gates,
            &mut draft,
        )?;
        if let Some(why) = conclusion {
            return Err(refused(number, why));
        }
        number += 1;
    }
}

// What stands after the last statement that is closed.
#[tactic(auto, using(crate::proofs::Onward::end_bad, crate::proofs::Onward::end_open, crate::proofs::Onward::end_none))]
fn read_end(
    rest: &Lexemes<'_>,
    bad: Option<u32>,
    number: u32,
    draft: Draft<'_>,
) -> Result<Circuit, ReadStop>
    requires { IsDraft draft }
    ensures circuit { IfOk result (λ c. (limit : ℕ) (all : List Part) (gates : Known) → all ≢ [] → Reached limit all (last_part rest.now bad) draft.entry gates number → Reads limit all (circuit c)) }
    ensures sound { IfOk result (λ c. IsCircuit c) }
    ensures refused { IfErr result (λ stop. IfRefused stop (λ r. (limit : ℕ) (all : List Part) (gates : Known) → Reached limit all (last_part rest.now bad) draft.entry gates number → Reads limit all (refusal r.statement r.why))) }
{
    if let Some(place) = bad {
        return Err(refused(number, Why::BadByte(place)));
    }
    if rest.is_empty() {
        Ok(draft.circuit())
    } else {
        Err(refused(number, no_form(number == 1)))
    }
}

// Why there is no statement where one is wanted.
fn no_form(first: bool) -> Why
    ensures { result ≡ no_form first }
{
    if first {
        Why::NoVersion
    } else {
        Why::NotAStatement
    }
}

fn is_version(form: &Form<'_>) -> bool
    ensures { result ≡ is_version (shown form.now) }
{
    match form {
        Form::Version => true,
        _ => false,
    }
}

// Reads a statement, without its end, and carries it out. Why it is refused, if it is.
fn follow<'a>(
    alloc: Global,
    part: &mut Lexemes<'a>,
    end: Closing,
    first: bool,
    limit: u8,
    gates: &Gates<'a>,
    draft: &mut Draft<'a>,
) -> Result<Option<Why>, OutOfMemory>
    requires draft { IsDraft draft.old }
    requires gates { IsGates gates.now }
    requires few { limit ≤ 64 }
    ensures { IfOk result (λ why. (before : List Act) → Follows limit before draft.old → Knows before gates.now → first ≡ nat_eq (length before) 0 → Concludes limit before (ended_part part.old (seen_end end)) why draft.new gates.now) }
{
    let left = begins_left(part, gates);
    let Some(form) = read_statement(part, left, end) else {
        return Ok(Some(no_form(first)));
    };
    if is_version(&form) != first {
        return Ok(Some(no_form(first)));
    }
    draft.carry_out(alloc, gates, form, limit)
}
