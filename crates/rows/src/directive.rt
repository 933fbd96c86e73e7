//! The lines of a table.

use crate::devices::Device;

/// What a line says. A text stands as often as its number says.
#[derive(Clone, Copy)]
pub enum Directive<'a> {
    Row(&'a str),
    Words(&'a str),
    Again,
    File,
    Line(u32, &'a str),
    Part(u32, &'a str),
    Set(Device, u32),
    Stream,
    Brief,
    Count,
    SomeStep,
    Each(Device, u32, u32),
    Fronts,
    Run,
}

/// What a line says. None where it says nothing.
pub fn said_by(line: &str) -> Option<Directive<'_>> {
    let (word, rest) = match line.split_once(' ') {
        Some(parts) => parts,
        None => (line, ""),
    };
    match word {
        "row" => Some(Directive::Row(rest)),
        "words" => Some(Directive::Words(rest)),
        "line" => Some(Directive::Line(1, rest)),
        "part" => Some(Directive::Part(1, rest)),
        "lines" => {
            let (times, text) = numbered(rest)?;
            Some(Directive::Line(times, text))
        }
        "parts" => {
            let (times, text) = numbered(rest)?;
            Some(Directive::Part(times, text))
        }
        "each" => each(rest),
        _ => {
            if rest.is_empty() {
                plain(word)
            } else {
                set(word, rest)
            }
        }
    }
}

// A word that stands alone.
fn plain<'a>(word: &str) -> Option<Directive<'a>> {
    match word {
        "again" => Some(Directive::Again),
        "file" => Some(Directive::File),
        "stream" => Some(Directive::Stream),
        "brief" => Some(Directive::Brief),
        "count" => Some(Directive::Count),
        "some_step" => Some(Directive::SomeStep),
        "fronts" => Some(Directive::Fronts),
        "run" => Some(Directive::Run),
        _ => None,
    }
}

// A number of at least 1.
fn number(word: &str) -> Option<u32> {
    match word.parse::<u32>() {
        Ok(number) => { if number == 0 { None } else { Some(number) } }
        Err(_) => None,
    }
}

// A number, and what stands behind it.
fn numbered(text: &str) -> Option<(u32, &str)> {
    let (word, rest) = text.split_once(' ')?;
    let times = number(word)?;
    Some((times, rest))
}

fn set<'a>(name: &str, rest: &str) -> Option<Directive<'a>> {
    let device = Device::named(name)?;
    let number = number(rest)?;
    Some(Directive::Set(device, number))
}

fn each<'a>(text: &str) -> Option<Directive<'a>> {
    let (name, rest) = text.split_once(' ')?;
    let device = Device::named(name)?;
    let (first, last) = numbered(rest)?;
    let last = number(last)?;
    if last < first {
        return None;
    }
    Some(Directive::Each(device, first, last))
}
