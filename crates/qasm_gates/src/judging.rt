//! What calls of gates come to, before anything is done: how many gates, or why they are refused.
ghost use Rattle.std.specs.Prelude.{◌≡◌, ◌<◌, ◌≤◌, drop, IfOk, IfSome, length, map, get_or, Ok, option_map};
ghost use Rattle.std.specs.Result.{result_map_both};
ghost use Rattle.qasm_lex.specs.Angles.{given_by, outcome_by, ratio_of, value_by};
ghost use Rattle.qasm_lex.specs.Expressions.{eval};
ghost use Rattle.qasm_lex.specs.Values.{values, multiple_of};
ghost use Rattle.qasm_gates.specs.Gates.{all_of, builtin_gate, angle_count, base_angles};
ghost use Rattle.qasm_gates.specs.Bodies.{call_means};
ghost use Rattle.qasm_gates.specs.Private.Seen.{seen_base, seen_builtin};
ghost use Rattle.qasm_gates.specs.Private.Counts.{whole_turns, turn_body, phase_body, body_for, multiples, Tally, tally, added, capped, seen_values};
ghost use Rattle.qasm_gates.specs.Private.Tables.{store_of, callee_angles, symbols_at, tree_at, angles_at, lines_of, gate_of, line_at, gates_of, nothing, IsCallee, IsStored, IsLine, IsRow, IsTable};

use crate::builtin::{Base, Builtin, turns};
use crate::codes::{Code, symbols_in};
use crate::table::{Angle, Callee, Line, Row, Table};
use arrayvec::ArrayVec;
use bit_lists::OutOfMemory;
use gate_set::Kind;
use qasm_lex::{AngleRefusal, AngleValue, Bound, PiFraction, Symbol, eighth, outcome_of, quarter};
use std::alloc::Global;

/// How many gates, up to 1,000,001, None where an angle is off its grid, or the first refusal.
pub type Judged = Result<Option<u32>, AngleRefusal>;

/// How often a gate of which kind a call of a built-in gate comes to, None off its grid, or the refusal of its angle.
pub type Body = Result<Option<(Kind, u8)>, AngleRefusal>;

/// The values of the angles of a call, or the first refusal.
type Values = Result<Vec<Bound>, AngleRefusal>;

/// More gates than a circuit may have.
const MANY: u32 = 1000001;

// The count of two calls together.
fn add(one: Judged, more: Judged) -> Judged
    ensures { result ≡ capped (added one more) }
{
    match one? {
        Some(m) => match more? {
            Some(n) => Ok(Some(m.saturating_add(n).min(MANY))),
            None => Ok(None),
        },
        None => match more? {
            Some(_) => Ok(None),
            None => Ok(None),
        },
    }
}

// The number of quarter turns below 8 that a fraction of π is.
fn quarters_of(f: PiFraction) -> Option<u8>
    ensures value { result ≡ whole_turns 2 (ratio_of f) }
    ensures below { IfSome result (λ m. m < 8) }
{
    quarter(f)
}

// The number of eighths of a turn below 8 that a fraction of π is.
fn eighths_of(f: PiFraction) -> Option<u8>
    ensures { result ≡ whole_turns 4 (ratio_of f) }
{
    eighth(f)
}

// How the turns by a fraction of π are done.
fn turn_by(forth: Kind, back: Kind, f: PiFraction) -> Option<(Kind, u8)>
    ensures { result ≡ option_map (turn_body forth back) (whole_turns 2 (ratio_of f)) }
{
    match quarters_of(f) {
        Some(quarters) => Some(turns(forth, back, quarters)),
        None => None,
    }
}

// The phase by a fraction of π.
fn phase_by(f: PiFraction) -> Option<(Kind, u8)>
    ensures { result ≡ option_map phase_body (whole_turns 4 (ratio_of f)) }
{
    match eighths_of(f) {
        Some(eighths) => Some((Kind::Phase(eighths), 1)),
        None => None,
    }
}

fn turned(forth: Kind, back: Kind, value: AngleValue) -> Body
    ensures { result ≡ result_map_both (λ q. option_map (turn_body forth back) (whole_turns 2 q)) (λ e. e) (multiple_of (Ok (value_by value))) }
{
    Ok(turn_by(forth, back, value.of_pi()?))
}

fn phased(value: AngleValue) -> Body
    ensures { result ≡ result_map_both (λ q. option_map phase_body (whole_turns 4 q)) (λ e. e) (multiple_of (Ok (value_by value))) }
{
    Ok(phase_by(value.of_pi()?))
}

/// What a call of a built-in gate comes to.
#[tactic(auto, using(crate::proofs::Bodied::plain_body, crate::proofs::Bodied::turned_body, crate::proofs::Bodied::phased_body))]
pub fn body_of(base: Base, values: &[Bound]) -> Body
    requires { length values.now ≡ base_angles (seen_base base) }
    ensures { result ≡ body_for (seen_base base) (multiples (given_by values.now)) }
{
    match base {
        Base::Gate(kind) => Ok(Some((kind, 1))),
        Base::Turn(forth, back) => match values.split_first() {
            Some((bound, _)) => turned(forth, back, bound.value),
            None => Ok(None),
        },
        Base::Phase => match values.split_first() {
            Some((bound, _)) => phased(bound.value),
            None => Ok(None),
        },
    }
}

// How many gates that is.
fn count_in(body: Body) -> Judged
    ensures { result ≡ result_map_both (option_map (λ p. p.1)) (λ e. e) body }
{
    match body? {
        Some((_, times)) => Ok(Some(u32::from(times))),
        None => Ok(None),
    }
}

// How many gates a call of a built-in gate comes to.
fn judge_builtin(built: Builtin, values: &[Bound]) -> Judged
    requires { length values.now ≡ angle_count (seen_builtin built) }
    ensures { result ≡ capped (tally ((builtin_gate (seen_builtin built)).means (given_by values.now))) }
{
    count_in(body_of(built.base, values))
}

impl Table {
    fn codes_from(&self, at: u32) -> &[Code]
        requires { at ≤ length self.now.codes.items }
        ensures { result.now ≡ drop at self.now.codes.items }
    {
        &self.codes[at as usize..]
    }

    fn numbers_from(&self, at: u32) -> &[i64]
        requires { at ≤ length self.now.numbers.items }
        ensures { result.now ≡ drop at self.now.numbers.items }
    {
        &self.numbers[at as usize..]
    }

    // The symbols of an angle in a body.
    fn symbols_of(&self, angle: Angle) -> ArrayVec<Symbol, 64>
        requires { IsStored (store_of self.now) angle }
        ensures { result.items ≡ symbols_at (store_of self.now) angle }
    {
        symbols_in(self.codes_from(angle.code), self.numbers_from(angle.number))
    }

    // The value of an angle in a body.
    fn value_of(&self, angle: Angle, bound: &[Bound]) -> Result<AngleValue, AngleRefusal>
        requires { IsStored (store_of self.now) angle }
        ensures { outcome_by result ≡ eval (values (given_by bound.now)) (tree_at (store_of self.now) angle) }
    {
        outcome_of(self.symbols_of(angle).as_slice(), bound)
    }

    // The angles of a call in a body.
    fn angles_of(&self, line: Line) -> &[Angle]
        requires { IsLine (store_of self.now) (length self.now.rows.items) line }
        ensures { result.now ≡ angles_at (store_of self.now) line }
    {
        let first = line.angles as usize;
        &self.angles[first..first + self.angle_count(line.callee) as usize]
    }

    /// The calls of a body.
    pub fn lines_of(&self, row: Row) -> &[Line]
        requires { IsRow (store_of self.now) (length self.now.rows.items) row }
        ensures { result.now ≡ lines_of (store_of self.now) row }
    {
        &self.lines[row.from as usize..row.to as usize]
    }

    /// The values of the angles of a call in a body, or the first refusal.
    pub fn values_of(
        &self,
        alloc: Global,
        line: Line,
        bound: &[Bound],
    ) -> Result<Values, OutOfMemory>
        requires table { IsTable self.now }
        requires line { IsLine (store_of self.now) (length self.now.rows.items) line }
        ensures { IfOk result (λ v. seen_values v ≡ all_of (map (eval (values (given_by bound.now))) (map (tree_at (store_of self.now)) (angles_at (store_of self.now) line)))) }
    {
        let mut out = Vec::new(alloc);
        let mut rest = self.angles_of(line);
        while let Some((angle, after)) = rest.split_first() {
            match self.value_of(*angle, bound) {
                Ok(value) => out.push(Bound {
                    from: 0,
                    to: 0,
                    value,
                })?,
                Err(refusal) => return Ok(Err(refusal)),
            }
            rest = after;
        }
        Ok(Ok(out))
    }

    // What a call in a body comes to.
    #[cycle(judging)]
    fn judge_line(&self, alloc: Global, line: Line, bound: &[Bound]) -> Result<Judged, OutOfMemory>
        requires table { IsTable self.now }
        requires line { IsLine (store_of self.now) (length self.now.rows.items) line }
        ensures { IfOk result (λ judged. judged ≡ capped (tally (call_means (given_by bound.now) (line_at (store_of self.now) (gates_of (store_of self.now)) line)))) }
    {
        match self.values_of(alloc, line, bound)? {
            Err(refusal) => Ok(Err(refusal)),
            Ok(values) => self.judge(alloc, line.callee, &values),
        }
    }

    // What a call of a defined gate comes to.
    #[cycle(judging)]
    fn judge_row(&self, alloc: Global, gate: u32, bound: &[Bound]) -> Result<Judged, OutOfMemory>
        requires table { IsTable self.now }
        requires known { gate < length self.now.rows.items }
        ensures { IfOk result (λ judged. judged ≡ capped (tally ((get_or (gates_of (store_of self.now)) gate nothing).means (given_by bound.now)))) }
    {
        let row = self.row(gate);
        let mut sum = Ok(Some(0));
        let mut rest = self.lines_of(row);
        while let Some((line, after)) = rest.split_first() {
            let one = self.judge_line(alloc, *line, bound)?;
            sum = add(sum, one);
            rest = after;
        }
        Ok(sum)
    }

    /// What a call of a gate comes to, where its angles have these values. The work is linear in the items of the gate. It calls itself as deep
    /// as gates call others.
    #[cycle(judging)]
    pub fn judge(
        &self,
        alloc: Global,
        callee: Callee,
        bound: &[Bound],
    ) -> Result<Judged, OutOfMemory>
        requires table { IsTable self.now }
        requires known { IsCallee (length self.now.rows.items) callee }
        requires counted { length bound.now ≡ callee_angles self.now.rows.items callee }
        ensures { IfOk result (λ judged. judged ≡ capped (tally ((gate_of (gates_of (store_of self.now)) callee).means (given_by bound.now)))) }
    {
        match callee {
            Callee::Builtin(built) => Ok(judge_builtin(built, bound)),
            Callee::Defined(gate) => self.judge_row(alloc, gate, bound),
        }
    }
}
