//! The words and options of each command, as `clap` reads them.
ghost use Rattle.std.specs.Prelude.{◌≡◌, IfOk, IsErrOf, OnErr, ◌≢◌, [], map, string_bytes};
ghost use Rattle.clap.specs.Words.{app_of, rows_of, found_of};
ghost use Rattle.sliq_words.specs.Forms.{bare_app, with_word, with_option, with_input, with_rules, app_for, IsCommand, faults, rows_for};

use crate::form::{Form, Word};
use crate::reading::AskStop;
use clap::error::ErrorKind;
use clap::{Arg, ArgAction, ArgMatches, Command};
use std::alloc::{AllocError, Global};

/// A command line with no words and no options.
fn bare<'a>(alloc: Global) -> Command<'a>
    ensures { app_of result ≡ bare_app }
{
    Command::new(alloc, "sliq").no_binary_name(true)
}

/// Adds a word, which must be given, where the command has one.
fn add_word<'a>(
    command: Command<'a>,
    alloc: Global,
    word: Option<Word>,
    id: &'a str,
) -> Result<Command<'a>, AllocError>
    ensures { IfOk result (λ c. app_of c ≡ with_word word id.entry.now (app_of command.entry)) }
{
    let Some(_) = word else {
        return Ok(command);
    };
    let word = Arg::new(alloc, id).required(true).action(ArgAction::Set);
    command.arg(word)
}

/// Adds an option with one value.
fn add_option<'a>(
    command: Command<'a>,
    alloc: Global,
    id: &'a str,
) -> Result<Command<'a>, AllocError>
    ensures { IfOk result (λ c. app_of c ≡ with_option id.entry.now (app_of command.entry)) }
{
    let option = Arg::new(alloc, id).long(id).action(ArgAction::Set);
    command.arg(option)
}

/// Adds `--input`, where the command has it.
fn add_input<'a>(command: Command<'a>, alloc: Global, has: bool) -> Result<Command<'a>, AllocError>
    ensures { IfOk result (λ c. app_of c ≡ with_input has (app_of command.entry)) }
{
    if !has {
        return Ok(command);
    }
    add_option(command, alloc, "input")
}

/// Adds the options that every command has.
fn add_rules<'a>(command: Command<'a>, alloc: Global) -> Result<Command<'a>, AllocError>
    ensures { IfOk result (λ c. app_of c ≡ with_rules (app_of command.entry)) }
{
    let width = add_option(command, alloc, "width")?;
    let nodes = add_option(width, alloc, "nodes")?;
    let cache = add_option(nodes, alloc, "cache")?;
    let reclaim = add_option(cache, alloc, "reclaim")?;
    add_option(reclaim, alloc, "sift")
}

/// The command line of a command.
fn syntax<'a>(alloc: Global, form: Form) -> Result<Command<'a>, AllocError>
    ensures { IfOk result (λ c. app_of c ≡ app_for form) }
{
    let first = add_word(bare(alloc), alloc, form.first, "FIRST")?;
    let second = add_word(first, alloc, form.second, "SECOND")?;
    let third = add_word(second, alloc, form.third, "THIRD")?;
    let input = add_input(third, alloc, form.input)?;
    add_rules(input, alloc)
}

/// What `clap` finds in the words after a command's name.
pub fn matches_in<'a>(
    alloc: Global,
    form: Form,
    words: &'a [String],
) -> Result<ArgMatches<'a>, AskStop>
    requires { IsCommand form }
    ensures bad { IsErrOf result AskStop.Bad → faults form (map string_bytes words.entry.now) ≢ [] }
    ensures reads { IfOk result (λ _. faults form (map string_bytes words.entry.now) ≡ []) }
    ensures rows { IfOk result (λ m. rows_of (found_of m) ≡ rows_for form (map string_bytes words.entry.now)) }
{
    let Ok(command) = syntax(alloc, form) else {
        return Err(AskStop::OutOfMemory);
    };
    match command.try_get_matches_from(words) {
        Ok(matches) => Ok(matches),
        Err(error) => match error.kind() {
            ErrorKind::OutOfMemory => Err(AskStop::OutOfMemory),
            _ => Err(AskStop::Bad),
        },
    }
}
