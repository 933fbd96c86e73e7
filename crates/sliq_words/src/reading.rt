//! The words of a run, read as a command.
ghost use Rattle.std.specs.Prelude.{◌≡◌, ◌≤◌, ◌∷◌, [], ◌++◌, IfOk, OnOk, IfErr, IfSome, IsErrOf, map, string_bytes, None, Some, Err, option_map};
ghost use Rattle.clap.specs.Words.{rows_of, found_of};
ghost use Rattle.sliq_words.specs.Forms.{IsCommand, IsWithin};
ghost use Rattle.sliq_words.specs.Asked.{asked_of, command_in, request_of, request_in, IsRequest, InRange, setting_of, rules_in, input_in, number_at, filled, task_in, names_at, files_in};

use crate::form::{Form, Kind, Word, named};
use crate::syntax::matches_in;
use crate::values::{bits, number};
use amp_dense::Rules;
use bit_lists::Bits;
use clap::ArgMatches;
use std::alloc::Global;
use thiserror::Error;

/// A command with its values. `input` is None where `--input` isn't given.
#[derive(Clone, Copy)]
pub enum Task {
    Sim { input: Option<Bits> },
    Eq,
    Prob,
    Demo { qubits: u8, gates: u32, seed: u64 },
    Sample { shots: u32, seed: u64 },
    Fidelity,
}

/// What the words of a run ask for: a command with its values, the names of its files in their order, and the rules of its simulation.
#[derive(Drop)]
pub struct Asked {
    pub task: Task,
    pub files: Vec<String>,
    pub rules: Rules,
}

/// Why words ask for nothing.
#[derive(Clone, Copy, Debug, PartialEq, Eq, Error)]
pub enum AskStop {
    #[error("Bad")]
    Bad,
    #[error("OutOfMemory")]
    OutOfMemory,
}

/// The number of an option within its range, or the usual one where the option isn't given.
fn setting(matches: &ArgMatches, id: &str, least: u64, most: u64, usual: u64) -> Option<u64>
    requires least { least ≤ usual }
    requires most { usual ≤ most }
    ensures value { result ≡ setting_of id.now least most usual (rows_of (found_of matches.now)) }
    ensures range { IfSome result (λ n. (least ≤ n) × (n ≤ most)) }
{
    match matches.get_str(id) {
        Some(text) => number(text, least, most),
        None => Some(usual),
    }
}

/// The rules, each by its option.
fn rules(matches: &ArgMatches) -> Option<Rules>
    ensures { result ≡ rules_in (rows_of (found_of matches.now)) }
{
    let width = setting(matches, "width", 2, 128, 128)?;
    let nodes = setting(matches, "nodes", 64, 16777216, 1048576)?;
    let cache = setting(matches, "cache", 1, 1048576, 65536)?;
    let reclaim = setting(matches, "reclaim", 0, 1000000, 16)?;
    let sift = setting(matches, "sift", 0, 1000000, 0)?;
    Some(Rules {
        width: width as u8,
        nodes: nodes as u32,
        cache: cache as u32,
        reclaim: reclaim as u32,
        sift: sift as u32,
    })
}

/// The bits of `--input`, if it is given.
fn input(matches: &ArgMatches) -> Option<Option<Bits>>
    ensures { result ≡ input_in (rows_of (found_of matches.now)) }
{
    match matches.get_str("input") {
        Some(text) => match bits(text) {
            Some(list) => Some(Some(list)),
            None => None,
        },
        None => Some(None),
    }
}

/// The number of a word, within its range; 0 where the command has no number there.
fn number_at(word: Option<Word>, id: &str, matches: &ArgMatches) -> Option<u64>
    ensures value { result ≡ number_at word id.now (rows_of (found_of matches.now)) }
    ensures range { IfSome result (IsWithin word) }
{
    let Some(word) = word else {
        return Some(0);
    };
    match word {
        Word::File => Some(0),
        Word::Number(least, most) => match matches.get_str(id) {
            Some(text) => number(text, least, most),
            None => None,
        },
    }
}

/// The task of this kind with these values.
fn filled(kind: Kind, first: u64, second: u64, third: u64, input: Option<Bits>) -> Task
    requires { InRange (filled kind first second third input) }
    ensures { result ≡ filled kind first second third input }
{
    match kind {
        Kind::Sim => Task::Sim { input },
        Kind::Eq => Task::Eq,
        Kind::Prob => Task::Prob,
        Kind::Demo => Task::Demo {
            qubits: first as u8,
            gates: second as u32,
            seed: third,
        },
        Kind::Sample => Task::Sample {
            shots: second as u32,
            seed: third,
        },
        Kind::Fidelity => Task::Fidelity,
    }
}

/// A command with its values.
fn task_of(form: Form, matches: &ArgMatches) -> Option<Task>
    requires { IsCommand form }
    ensures { result ≡ task_in form (rows_of (found_of matches.now)) }
{
    let first = number_at(form.first, "FIRST", matches)?;
    let second = number_at(form.second, "SECOND", matches)?;
    let third = number_at(form.third, "THIRD", matches)?;
    let input = input(matches)?;
    Some(filled(form.kind, first, second, third, input))
}

/// Adds the name of a file, where the command has one.
fn add_name(
    alloc: Global,
    files: &mut Vec<String>,
    word: Option<Word>,
    id: &str,
    matches: &ArgMatches,
) -> Result<(), AskStop>
    ensures named { OnOk result (option_map (λ names. map string_bytes files.old.items ++ names) (names_at word id.now (rows_of (found_of matches.now))) ≡ Some (map string_bytes files.new.items)) }
    ensures bad { IsErrOf result AskStop.Bad → names_at word id.now (rows_of (found_of matches.now)) ≡ None }
{
    let Some(word) = word else {
        return Ok(());
    };
    match word {
        Word::File => match matches.get_str(id) {
            Some(name) => push_name(alloc, files, name),
            None => Err(AskStop::Bad),
        },
        Word::Number(..) => Ok(()),
    }
}

/// Adds a name.
fn push_name(alloc: Global, files: &mut Vec<String>, name: &str) -> Result<(), AskStop>
    ensures ok { OnOk result (map string_bytes files.new.items ≡ map string_bytes files.old.items ++ name.now ∷ []) }
    ensures stop { IfErr result (λ stop. stop ≡ AskStop.OutOfMemory) }
{
    let Ok(name) = String::from_str(alloc, name) else {
        return Err(AskStop::OutOfMemory);
    };
    match files.push(name) {
        Ok(()) => Ok(()),
        Err(_) => Err(AskStop::OutOfMemory),
    }
}

/// The files of a command, in their order.
fn files(alloc: Global, form: Form, matches: &ArgMatches) -> Result<Vec<String>, AskStop>
    ensures named { IfOk result (λ files. files_in form (rows_of (found_of matches.now)) ≡ Some (map string_bytes files.items)) }
    ensures bad { IsErrOf result AskStop.Bad → files_in form (rows_of (found_of matches.now)) ≡ None }
{
    let mut files = Vec::new(alloc);
    add_name(alloc, &mut files, form.first, "FIRST", matches)?;
    add_name(alloc, &mut files, form.second, "SECOND", matches)?;
    add_name(alloc, &mut files, form.third, "THIRD", matches)?;
    Ok(files)
}

/// What a command's words and options ask for: the values are read before any file's name is copied.
fn read_values(alloc: Global, form: Form, matches: &ArgMatches) -> Result<Asked, AskStop>
    requires { IsCommand form }
    ensures reads { IfOk result (λ a. request_in form (rows_of (found_of matches.now)) ≡ Some (request_of a)) }
    ensures bad { IsErrOf result AskStop.Bad → request_in form (rows_of (found_of matches.now)) ≡ None }
{
    let Some(task) = task_of(form, matches) else {
        return Err(AskStop::Bad);
    };
    let Some(rules) = rules(matches) else {
        return Err(AskStop::Bad);
    };
    let files = files(alloc, form, matches)?;
    Ok(Asked { task, files, rules })
}

/// What the words of a run ask for: the second names the command, and those behind it are its command line, with each value in its range.
///
/// Memory is taken for the command line's words and options, and for the names of the files; none where there are fewer than two words or the
/// second names no command.
pub fn ask(alloc: Global, words: &[String]) -> Result<Asked, AskStop>
    ensures reads { IfOk result (λ a. asked_of (map string_bytes words.now) ≡ Some (request_of a)) }
    ensures sound { IfOk result (λ a. IsRequest (request_of a)) }
    ensures bad { IsErrOf result AskStop.Bad → asked_of (map string_bytes words.now) ≡ None }
    ensures no_command { command_in (map string_bytes words.now) ≡ None → result ≡ Err AskStop.Bad }
{
    if words.len() < 2 {
        return Err(AskStop::Bad);
    }
    let Some(form) = named(words[1].as_str()) else {
        return Err(AskStop::Bad);
    };
    match matches_in(alloc, form, &words[2..]) {
        Ok(matches) => read_values(alloc, form, &matches),
        Err(stop) => Err(stop),
    }
}
