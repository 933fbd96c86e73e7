//! Runs that are alike but for one number.

use crate::page::Page;
use crate::row::{Row, Sweep};
use crate::running::{Ran, run_row};
use bit_lists::OutOfMemory;
use std::alloc::Global;

// Numbers in a row whose runs end alike.
#[derive(Drop)]
struct Group {
    first: u32,
    last: u32,
    end: Vec<u8>,
}

/// A row's answer: its run in full, and a line for each number of its sweep.
pub fn row_answer(alloc: Global, row: &Row) -> Result<Vec<u8>, OutOfMemory> {
    let whole = run_row(alloc, row, row.devices, usize::MAX)?;
    let mut page = Page::new(alloc);
    page.answer(row, &whole)?;
    if let Some(sweep) = row.sweep {
        tell_sweep(alloc, &mut page, row, sweep, &whole)?;
    }
    page.text("\n")?;
    Ok(page.bytes)
}

// A line for each number, and one for all in a row that end alike.
fn tell_sweep(
    alloc: Global,
    page: &mut Page,
    row: &Row,
    sweep: Sweep,
    whole: &Ran,
) -> Result<(), OutOfMemory> {
    let (first, last) = range_of(row, sweep);
    let mut group = Group {
        first,
        last: first,
        end: end_of(alloc, row, sweep, first, whole)?,
    };
    for number in first.saturating_add(1)..=last {
        let end = end_of(alloc, row, sweep, number, whole)?;
        if end.as_slice() == group.end.as_slice() {
            group.last = number;
        } else {
            tell_group(page, sweep, &group)?;
            group = Group {
                first: number,
                last: number,
                end,
            };
        }
    }
    tell_group(page, sweep, &group)
}

// The first number and the last one.
fn range_of(row: &Row, sweep: Sweep) -> (u32, u32) {
    match sweep {
        Sweep::Each(_, first, last) => (first, last),
        Sweep::Fronts => match row.files.first() {
            Some(text) => (0, u32::try_from(text.len()).unwrap_or(u32::MAX)),
            None => (0, 0),
        },
    }
}

// How the run of a number ended, beside the run in full.
fn end_of(
    alloc: Global,
    row: &Row,
    sweep: Sweep,
    number: u32,
    whole: &Ran,
) -> Result<Vec<u8>, OutOfMemory> {
    let ran = match sweep {
        Sweep::Each(device, _, _) => {
            run_row(alloc, row, row.devices.with(device, number), usize::MAX)?
        }
        Sweep::Fronts => run_row(alloc, row, row.devices, number as usize)?,
    };
    let mut page = Page::new(alloc);
    page.text("status ")?;
    page.number(u64::from(ran.status), "; out ")?;
    page.beside(ran.out.written(), whole.out.written())?;
    page.text("; err ")?;
    page.beside(ran.err.written(), whole.err.written())?;
    if row.count {
        page.text("; ")?;
        page.calls(&ran)?;
    }
    Ok(page.bytes)
}

fn tell_group(page: &mut Page, sweep: Sweep, group: &Group) -> Result<(), OutOfMemory> {
    match sweep {
        Sweep::Each(device, _, _) => page.text(device.name())?,
        Sweep::Fronts => page.text("front of")?,
    }
    page.text(" ")?;
    page.number(u64::from(group.first), "")?;
    if group.first < group.last {
        page.text(" to ")?;
        page.number(u64::from(group.last), "")?;
    }
    page.text(": ")?;
    page.bytes.extend_from_slice(&group.end)?;
    page.text("\n")
}
