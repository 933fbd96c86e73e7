//! Tables of runs.

use crate::directive::{Directive, said_by};
use crate::fault::Fault;
use crate::row::Row;
use crate::sweep::row_answer;
use outside::{Sink, write_all};
use std::alloc::Global;
use std::mem;

/// A row that isn't run yet, and the files of the one before it.
#[derive(Drop)]
struct Table {
    row: Option<Row>,
    before: Vec<Vec<u8>>,
}

/// Runs the rows of a table, and writes the answer of each.
pub fn tell_table<K: Sink>(alloc: Global, text: &str, out: &mut K) -> Result<(), Fault> {
    let mut table = Table {
        row: None,
        before: Vec::new(alloc),
    };
    let mut number = 0u32;
    for line in text.lines() {
        number = number.saturating_add(1);
        if !line.is_empty() && !line.starts_with('#') {
            let taken = table.take(alloc, line, out)?;
            if !taken {
                return Err(Fault::Line(number));
            }
        }
    }
    if table.row.is_some() {
        return Err(Fault::Open);
    }
    Ok(())
}

impl Table {
    // Does what a line says. False where it says nothing, or may not stand there.
    fn take<K: Sink>(&mut self, alloc: Global, line: &str, out: &mut K) -> Result<bool, Fault> {
        let Some(said) = said_by(line) else {
            return Ok(false);
        };
        match said {
            Directive::Row(name) => self.begin(alloc, name),
            Directive::Run => self.end(alloc, out),
            _ => {
                let Some(row) = &mut self.row else {
                    return Ok(false);
                };
                if let Directive::Again = said {
                    row.files = mem::replace(&mut self.before, Vec::new(alloc));
                    return Ok(true);
                }
                let taken = row.take(alloc, said)?;
                Ok(taken)
            }
        }
    }

    // The row before has to be run.
    fn begin(&mut self, alloc: Global, name: &str) -> Result<bool, Fault> {
        if self.row.is_some() {
            return Ok(false);
        }
        self.row = Some(Row::new(alloc, name)?);
        Ok(true)
    }

    fn end<K: Sink>(&mut self, alloc: Global, out: &mut K) -> Result<bool, Fault> {
        let Some(row) = self.row.take() else {
            return Ok(false);
        };
        let answer = row_answer(alloc, &row)?;
        write_all(out, &answer)?;
        self.before = row.files;
        Ok(true)
    }
}
