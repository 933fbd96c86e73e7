//! Vectors over diagrams, and what is done with them and asked of them.
ghost use Rattle.std.specs.Prelude.{◌≡◌, ◌≤◌, ◌<◌, ◌+◌, All, IfOk, length};
ghost use Rattle.gate_set.specs.Shape.{qubits_of};
ghost use Rattle.slice_quad.specs.Vectors.{Stands};

use crate::asked::ask;
use crate::moves::{tell_exchange, tell_many, tell_mix};
use bit_lists::Bits;
use call_rows::{Page, Row};
use diagram_ops::Diagrams;
use gate_set::{Gate, Kind};
use level_swap::{SwapStop, try_swap};
use node_store::StoreStop;
use slice_gates::gate_step;
use slice_quad::{SliceQuad, exponent, start};
use std::alloc::Global;
use step_upkeep::{Schedule, keep_up, reclaim_to};

/// The vector that is 1 at a list of bits, with so many nodes and cached answers, and what the words behind them say.
pub fn tell(row: &mut Row<'_>, page: &mut Page) {
    let x = Bits::from_text(row.word()).unwrap_or(Bits::zeros(0));
    let limit = row.count();
    let capacity = row.count();
    if limit < 1 || limit > 65_536 || capacity < 1 || capacity > 1_024 {
        return;
    }
    match begin(page.alloc, &x, limit, capacity) {
        Ok((mut d, mut q)) => {
            tell_words(&mut d, &mut q, row, page);
            drop(q);
            drop(d);
        }
        Err(stop) => page.show(&stop),
    }
}

// The diagrams of as many variables, and the vector that is 1 at `x` and 0 elsewhere.
fn begin(
    alloc: Global,
    x: &Bits,
    limit: u32,
    capacity: u32,
) -> Result<(Diagrams, SliceQuad), StoreStop>
    requires some { 1 ≤ limit }
    requires limit { limit ≤ 65536 }
    requires some_entry { 1 ≤ capacity }
    requires capacity { capacity ≤ 1024 }
    ensures stands { IfOk result (λ r. Stands r.0.store r.1) }
{
    let mut d = Diagrams::new(alloc, x.len(), limit, capacity)?;
    match start(alloc, &mut d, x) {
        Ok(q) => Ok((d, q)),
        Err(stop) => {
            drop(d);
            Err(stop)
        }
    }
}

fn tell_words(d: &mut Diagrams, q: &mut SliceQuad, row: &mut Row<'_>, page: &mut Page)
    requires { Stands d.old.store q.old }
{
    'words: for _ in 0..200 {
        if !row.is_over() {
            tell_word(d, q, row, page);
        }
    }
}

fn tell_word(d: &mut Diagrams, q: &mut SliceQuad, row: &mut Row<'_>, page: &mut Page)
    requires { Stands d.old.store q.old }
    ensures { Stands d.new.store q.new }
{
    match row.name() {
        "mix" => tell_mix(d, q, row, page),
        "exchange" => tell_exchange(d, q, row, page),
        "many" => tell_many(d, q, row.name(), row.count(), page),
        "gate" => tell_gate(d, q, page),
        "reclaims" => tell_reclaims(d, q, row.count(), page),
        "swap" => tell_swap(d, q, row.small(127), page),
        question => ask(question, d, q, row, page),
    }
}

// H on the first of three qubits, and then Cx from each to the next.
fn gate_at(alloc: Global, i: u8) -> Gate
    ensures { All (λ q. q < 3) (qubits_of result) }
{
    match i {
        0 => Gate::new(alloc, Kind::H, &[0]),
        1 => Gate::new(alloc, Kind::Cx, &[0, 1]),
        _ => Gate::new(alloc, Kind::Cx, &[1, 2]),
    }
}

// H on one qubit, at the least width.
fn tell_gate(d: &mut Diagrams, q: &mut SliceQuad, page: &mut Page)
    requires { Stands d.old.store q.old }
    ensures { Stands d.new.store q.new }
{
    let gate = Gate::new(page.alloc, Kind::H, &[0]);
    if d.store().order().len() == 1 && exponent(q) < 1000 {
        page.show(&gate_step(d, q, &gate, 2).is_ok());
    }
}

// Applies these gates, with reclaims after each so many. Whether none is refused.
fn same_bits(alloc: Global, d: &mut Diagrams, q: &mut SliceQuad, every: u32) -> bool
    requires { Stands d.old.store q.old }
    ensures { Stands d.new.store q.new }
{
    let schedule = Schedule {
        reclaim: every,
        sift: 0,
    };
    let mut all = true;
    for i in 0..3u8 {
        let kept = keep_up(alloc, d, q, schedule, 1).is_ok();
        if exponent(q) >= 100 || d.store().order().len() != 3 {
            return false;
        }
        let done = gate_step(d, q, &gate_at(alloc, i), 4).is_ok();
        all = all && kept && done;
    }
    all
}

// Applies the gates, and reclaims. Tells whether some nodes are freed, how many are left by that and by count, and how many answers are
// cached.
fn tell_reclaims(d: &mut Diagrams, q: &mut SliceQuad, every: u32, page: &mut Page)
    requires { Stands d.old.store q.old }
    ensures { Stands d.new.store q.new }
{
    page.show(&same_bits(page.alloc, d, q, every));
    let held = d.store().held();
    let freed = reclaim_to(page.alloc, d, q).unwrap_or(0);
    page.show(&(
        freed > 0,
        held.wrapping_sub(freed),
        d.store().held(),
        d.cached(),
    ));
}

// Exchanges the variables at a place of the order and at the next one.
fn tell_swap(d: &mut Diagrams, q: &SliceQuad, level: u8, page: &mut Page)
    requires { Stands d.old.store q.now }
    ensures { Stands d.new.store q.now }
{
    if level < 127 && level + 1 < d.store().order().len() {
        page.show(&swapped(page.alloc, d, q, level));
    }
}

fn swapped(alloc: Global, d: &mut Diagrams, _q: &SliceQuad, level: u8) -> Result<(), SwapStop>
    requires stands { Stands d.old.store _q.now }
    requires level { level + 1 < length d.old.store.order }
    ensures { Stands d.new.store _q.now }
{
    d.forget();
    try_swap(alloc, d.lend(), level)
}
