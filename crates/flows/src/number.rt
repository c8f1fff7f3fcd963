ghost use Rattle.std.specs.Prelude.{◌≡◌, ℕ, ◌+◌, ◌^◌, ◌<◌, ◌≤◌, ◌≢◌};
ghost use Rattle.routes.specs.Routes.{Passes, Ordered};
ghost use Rattle.routes.specs.Traces.{first_to};
ghost use Rattle.rows.specs.Rows.{cell, row_number, SameRows};
ghost use Rattle.rows.specs.Held.{circuit_in, circuit_of};
ghost use Rattle.flows.specs.Kept.{flow, Flows, routes, flow_in, routes_in};
ghost use Rattle.flows.specs.Units.{Ending};
ghost use Rattle.flows.specs.Numbers.{Numbers, Numbered, Numbering, noted, Endings, Ended, Marked, Prepared};

use circuits::making::Making;
use rows::held::Kind;
use rows::rows::{Row, Rows, View};

// What tracing reads is noted in the rows of the stack and of the steps tried, since the search is over then, and in one row more.
const BEFORE_FIRST: Row = Row::Stack;

const BEFORE_SECOND: Row = Row::StackSecond;

const RUNNING: Row = Row::Tried;

const ENDS_AT: Row = Row::TriedSecond;

const ENDED_BEFORE: Row = Row::Ended;

// One of the units at a wire.
#[derive(Clone, Copy, PartialEq, Eq, Debug)]
pub struct UnitAt {
    pub wire: u32,
    pub number: u32,
}

// Notes the number of the next unit of a wire, and counts on.
fn note(rows: &mut Rows, row: Row, from: usize, wire: usize, units: u32)
    requires other { row_number row ≢ 17 }
    requires from { from < rows.old.wires }
    requires wire { wire < rows.old.wires }
    requires few { cell rows.old.memory.now rows.old.wires 17 from + units < 2 ^ 32 }
    ensures same { SameRows rows.old rows.new }
    ensures memory { rows.new.memory.now ≡ noted rows.old.memory.now rows.old.wires (row_number row) from wire units }
{
    let next = rows.get(RUNNING, from);
    rows.put(row, wire, next);
    rows.put(RUNNING, from, next + units);
}

// Numbers the units that come to one wire. Where none can come, the number of the kind tells it sooner than the making that it stands for.
fn number_wire(rows: &mut Rows, wire: usize)
    requires ordered { Ordered (circuit_in rows.old) }
    requires wire { wire < rows.old.wires }
    requires few { (v : ℕ) → first_to (flow rows.old) v (wire + 1) < 2 ^ 32 }
    requires numbers { Numbers (circuit_in rows.old) (flow rows.old) rows.old.wires rows.old.memory.now wire }
    ensures same { SameRows rows.old rows.new }
    ensures memory { Numbering rows.old.wires rows.old.memory.now rows.new.memory.now (wire + 1) }
{
    let kind = rows.get(Row::Kind, wire);
    if kind == Kind::Input as u32 || kind > Kind::Sum as u32 {
        return;
    }
    let a = rows.get(Row::FromFirst, wire);
    let b = rows.get(Row::FromSecond, wire);
    match rows.making(wire) {
        Making::Copy(first) | Making::Inversion(first) => {
            note(rows, BEFORE_FIRST, first as usize, wire, a);
        }
        Making::Sum(first, second) => {
            note(rows, BEFORE_FIRST, first as usize, wire, a);
            note(rows, BEFORE_SECOND, second as usize, wire, b);
        }
        Making::Input | Making::Constant(_) | Making::Product(_, _) => {}
    }
}

// The units that end come first.
fn begin_numbers(rows: &mut Rows)
    ensures same { SameRows rows.old rows.new }
    ensures memory { Numbering rows.old.wires rows.old.memory.now rows.new.memory.now 0 }
{
    let finish = Row::Finish.number() * rows.wires;
    let running = RUNNING.number() * rows.wires;
    rows.memory
        .copy_within(finish..finish + rows.wires, running);
}

// Numbers the units of each wire in turn. Here and below wires go by rank, since each is read and written in several rows of one memory.
fn number_wires(rows: &mut Rows)
    requires ordered { Ordered (circuit_in rows.old) }
    requires flows { Flows rows.old.wires rows.old.memory.now }
    requires few { routes rows.old < 2 ^ 32 }
    requires numbers { Numbers (circuit_in rows.old) (flow rows.old) rows.old.wires rows.old.memory.now 0 }
    ensures same { SameRows rows.old rows.new }
    ensures memory { Numbering rows.old.wires rows.old.memory.now rows.new.memory.now rows.old.wires }
{
    for w in 0..rows.wires {
        number_wire(rows, w);
    }
}

// Numbers the units of the flow.
fn number_units(rows: &mut Rows)
    requires ordered { Ordered (circuit_in rows.old) }
    requires flows { Flows rows.old.wires rows.old.memory.now }
    requires few { routes rows.old < 2 ^ 32 }
    ensures same { SameRows rows.old rows.new }
    ensures memory { Numbering rows.old.wires rows.old.memory.now rows.new.memory.now rows.old.wires }
{
    begin_numbers(rows);
    number_wires(rows);
}

// The number, as units leave, of the first unit to a wire.
pub fn noted_before(rows: &View, from: u32, wire: usize) -> u32
    requires wire { wire < rows.now.wires }
    requires fed { Passes (circuit_of rows.now.memory.now rows.now.wires) wire from }
    requires numbered { Numbered rows.now.wires rows.now.memory.now }
    ensures { result ≡ first_to (flow_in rows.now.memory.now rows.now.wires) from wire }
{
    if rows.get(Row::First, wire) == from {
        rows.get(BEFORE_FIRST, wire)
    } else {
        rows.get(BEFORE_SECOND, wire)
    }
}

// Notes a wire for each of the units that end there.
fn mark_ends(rows: &mut Rows, from: usize, to: usize, wire: u32)
    requires order { from ≤ to }
    requires within { to ≤ rows.old.wires }
    ensures same { SameRows rows.old rows.new }
    ensures memory { Marked rows.old.wires rows.old.memory.now rows.new.memory.now from to wire }
{
    let row = ENDS_AT.number() * rows.wires;
    rows.memory[row + from..row + to].fill(wire);
}

// Notes where each unit ends. A loop, since where a wire's units begin is the sum of those before.
fn number_ends(rows: &mut Rows)
    requires ordered { Ordered (circuit_in rows.old) }
    requires flows { Flows rows.old.wires rows.old.memory.now }
    requires few { routes rows.old ≤ rows.old.wires }
    ensures same { SameRows rows.old rows.new }
    ensures memory { Ended rows.old.wires rows.old.memory.now rows.new.memory.now rows.old.wires }
{
    let mut total: u32 = 0;
    for w in 0..rows.wires {
        let next = total + rows.get(Row::Finish, w);
        rows.put(ENDED_BEFORE, w, total);
        mark_ends(rows, total as usize, next as usize, w as u32);
        total = next;
    }
}

// Notes all that tracing reads.
pub fn prepare(rows: &mut Rows)
    requires ordered { Ordered (circuit_in rows.old) }
    requires flows { Flows rows.old.wires rows.old.memory.now }
    requires few { routes rows.old ≤ rows.old.wires }
    ensures same { SameRows rows.old rows.new }
    ensures memory { Prepared rows.old.wires rows.old.memory.now rows.new.memory.now }
{
    // Rows of its own, whose slice stays at hand: behind the reference it would be fetched again after each write.
    let wires = rows.wires;
    let memory = &mut *rows.memory;
    let mut own = Rows { memory, wires };
    number_ends(&mut own);
    number_units(&mut own);
    // Moved out, so that the memory is known to be as `own` left it.
    let _memory = own.memory;
}

// The wire at which a unit ends, and its number there.
pub fn ending_noted(rows: &View, i: u32) -> UnitAt
    requires ordered { Ordered (circuit_of rows.now.memory.now rows.now.wires) }
    requires flows { Flows rows.now.wires rows.now.memory.now }
    requires few { routes_in rows.now.memory.now rows.now.wires ≤ rows.now.wires }
    requires some { i < routes_in rows.now.memory.now rows.now.wires }
    requires endings { Endings (flow_in rows.now.memory.now rows.now.wires) rows.now.wires rows.now.memory.now rows.now.wires }
    ensures { Ending (flow_in rows.now.memory.now rows.now.wires) rows.now.wires i result.wire result.number }
{
    let wire = rows.get(ENDS_AT, i as usize);
    let before = rows.get(ENDED_BEFORE, wire as usize);
    UnitAt {
        wire,
        number: i - before,
    }
}
