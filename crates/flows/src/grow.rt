ghost use Rattle.std.specs.Prelude.{◌≡◌, ◌+◌, ◌-◌, ◌*◌, ◌^◌, ◌<◌};
ghost use Rattle.routes.specs.Routes.{Ordered};
ghost use Rattle.routes.specs.Residuals.{Step};
ghost use Rattle.routes.specs.Plans.{Blocked, ones};
ghost use Rattle.rows.specs.Rows.{SameRows};
ghost use Rattle.rows.specs.Held.{circuit_in, bars_in};
ghost use Rattle.flows.specs.Kept.{flow, routes, Flows, Changed};
ghost use Rattle.flows.specs.Stacks.{place, stacked, moved, Small, Pending, Pushed, Stack, Grown, Emptied};

use crate::moves::{begin_one, end_one, pass_one, send_on, take_back, unpass_one};
use rows::rows::{Row, Rows};

// The number at a height of the stack.
fn stack_at(rows: &Rows, height: usize) -> u32
    requires within { height < 2 * rows.now.wires }
    ensures { result ≡ stacked rows.now.memory.now rows.now.wires height }
{
    rows.memory[Row::Stack.number() * rows.wires + height]
}

// Sends one unit more over a step, or takes one back. Its ends are numbers, as on the stack: a type for places lies in the crate of the graphs
// above this one, and one more for the two lines that halve them would be no plainer.
fn push(rows: &mut Rows, a: u32, b: u32)
    requires from { a < 2 * rows.old.wires }
    requires to { b < 2 * rows.old.wires }
    requires ordered { Ordered (circuit_in rows.old) }
    requires step { Step (circuit_in rows.old) (bars_in rows.old) ones (flow rows.old) (place a) (place b) }
    requires few { Small (flow rows.old) (2 ^ 32 - 2) }
    ensures same { SameRows rows.old rows.new }
    ensures flow { Changed rows.old.wires rows.old.memory.now (moved (place a) (place b) (flow rows.old)) rows.new.memory.now }
{
    let v = a / 2;
    let w = b / 2;
    if v == w {
        if a % 2 == 0 {
            pass_one(rows, w as usize);
        } else {
            unpass_one(rows, w as usize);
        }
    } else if a % 2 == 0 {
        take_back(rows, w, v as usize);
    } else {
        send_on(rows, v, w as usize);
    }
}

// Sends one unit more over each step of the path on the stack. The steps go by height, since the stack and what they change are one memory.
fn push_all(rows: &mut Rows, height: usize)
    requires ordered { Ordered (circuit_in rows.old) }
    requires few { routes rows.old + 2 ^ 22 < 2 ^ 32 }
    requires pending { Pending (circuit_in rows.old) (bars_in rows.old) rows.old.wires height (stacked rows.old.memory.now rows.old.wires) (routes rows.old) (flow rows.old) (height - 1) }
    ensures same { SameRows rows.old rows.new }
    ensures memory { Pushed rows.old.wires height rows.old.memory.now rows.new.memory.now 0 }
{
    for i in (1..height).rev() {
        let b = stack_at(rows, i);
        let a = stack_at(rows, i - 1);
        push(rows, a, b);
    }
}

// One route more, along the path on the stack.
pub fn grow(rows: &mut Rows, height: usize)
    requires ordered { Ordered (circuit_in rows.old) }
    requires unblocked { Blocked (circuit_in rows.old) (bars_in rows.old) → ⊥ }
    requires flows { Flows rows.old.wires rows.old.memory.now }
    requires stack { Stack rows.old.wires rows.old.memory.now height }
    ensures same { SameRows rows.old rows.new }
    ensures memory { Grown rows.old.wires height rows.old.memory.now rows.new.memory.now }
{
    // Rows of its own, as in `prepare`, since each step of the path writes.
    let wires = rows.wires;
    let memory = &mut *rows.memory;
    let mut own = Rows { memory, wires };
    let last = stack_at(&own, height - 1);
    end_one(&mut own, last as usize / 2);
    push_all(&mut own, height);
    let first = stack_at(&own, 0);
    begin_one(&mut own, first as usize / 2);
    let _memory = own.memory;
}

// Drops all routes.
pub fn drop_routes(rows: &mut Rows)
    ensures same { SameRows rows.old rows.new }
    ensures memory { Emptied rows.old.wires rows.old.memory.now rows.new.memory.now }
{
    rows.clear(Row::Start, Row::Marks);
}
