ghost use Rattle.std.specs.Prelude.{◌<◌, ◌≤◌, length};
ghost use Rattle.routes.specs.Routes.{Ordered};
ghost use Rattle.routes.specs.Stored.{slots_total};
ghost use Rattle.rows.specs.Held.{circuit_of};
ghost use Rattle.flows.specs.Kept.{Flows, flow_in, routes_in};
ghost use Rattle.flows.specs.Units.{Slot, Gives, TracedBack, Told};
ghost use Rattle.flows.specs.Numbers.{Ready};
ghost use Rattle.circuits.specs.declared.making.Making.TheVariants.{Sum};

use crate::number::{UnitAt, ending_noted, noted_before};
use circuits::making::Making;
use rows::rows::{Row, View};

// The wire that a unit of a sum comes from, and its number among those from there.
fn slot_of_sum(first: u32, second: u32, a: u32, b: u32, unit: u32) -> UnitAt
    requires { unit < slots_total (Sum first second) a b }
    ensures { Slot (Sum first second) a b unit result.wire result.number }
{
    let (wire, number) = if first == second {
        (first, unit)
    } else if first < second {
        if unit < a {
            (first, unit)
        } else {
            (second, unit - a)
        }
    } else if unit < b {
        (second, unit)
    } else {
        (first, unit - b)
    };
    UnitAt { wire, number }
}

// The same of a wire that is made in any way.
fn slot(how: Making, a: u32, b: u32, unit: u32) -> UnitAt
    requires { unit < slots_total how a b }
    ensures { Slot how a b unit result.wire result.number }
{
    match how {
        Making::Copy(first) | Making::Inversion(first) => UnitAt {
            wire: first,
            number: unit,
        },
        Making::Sum(first, second) => slot_of_sum(first, second, a, b, unit),
        Making::Input | Making::Constant(_) | Making::Product(_, _) => unreachable(),
    }
}

// The wire that a unit comes from where it does not begin, and its number among those from there.
fn giver(rows: &View, at: UnitAt) -> UnitAt
    requires ordered { Ordered (circuit_of rows.now.memory.now rows.now.wires) }
    requires flows { Flows rows.now.wires rows.now.memory.now }
    requires wire { at.wire < rows.now.wires }
    requires some { at.number < (flow_in rows.now.memory.now rows.now.wires).through at.wire }
    requires later { (flow_in rows.now.memory.now rows.now.wires).start at.wire ≤ at.number }
    ensures { Gives (flow_in rows.now.memory.now rows.now.wires) at.wire at.number result.wire result.number }
{
    let wire = at.wire as usize;
    let a = rows.get(Row::FromFirst, wire);
    let b = rows.get(Row::FromSecond, wire);
    let rest = at.number - rows.get(Row::Start, wire);
    slot(rows.making(wire), a, b, rest)
}

// Writes the wires of route i, the last first, by what was noted. A loop: with `successors` its body would be
// a closure, and that closure's contract the loop's invariant.
fn noted_back(rows: &View, i: u32, out: &mut [u32]) -> usize
    requires ordered { Ordered (circuit_of rows.now.memory.now rows.now.wires) }
    requires flows { Flows rows.now.wires rows.now.memory.now }
    requires few { routes_in rows.now.memory.now rows.now.wires ≤ rows.now.wires }
    requires ready { Ready rows.now.wires rows.now.memory.now }
    requires some { i < routes_in rows.now.memory.now rows.now.wires }
    requires long { rows.now.wires ≤ length out.old }
    ensures { TracedBack (flow_in rows.now.memory.now rows.now.wires) i rows.now.wires result out.old out.new }
{
    let mut at = ending_noted(rows, i);
    out[0] = at.wire;
    let mut len = 1;
    while at.number >= rows.get(Row::Start, at.wire as usize) {
        let from = giver(rows, at);
        let first = noted_before(rows, from.wire, at.wire as usize);
        at = UnitAt {
            wire: from.wire,
            number: first + from.number,
        };
        out[len] = at.wire;
        len += 1;
    }
    len
}

// Writes the wires of route i, and answers how many, by what was noted.
pub fn trace_noted(rows: &View, i: u32, out: &mut [u32]) -> usize
    requires ordered { Ordered (circuit_of rows.now.memory.now rows.now.wires) }
    requires flows { Flows rows.now.wires rows.now.memory.now }
    requires few { routes_in rows.now.memory.now rows.now.wires ≤ rows.now.wires }
    requires ready { Ready rows.now.wires rows.now.memory.now }
    requires some { i < routes_in rows.now.memory.now rows.now.wires }
    requires long { rows.now.wires ≤ length out.old }
    ensures { Told (flow_in rows.now.memory.now rows.now.wires) i rows.now.wires result out.old out.new }
{
    let len = noted_back(rows, i, out);
    out[..len].reverse();
    len
}
