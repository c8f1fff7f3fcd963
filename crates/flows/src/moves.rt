ghost use Rattle.std.specs.Prelude.{◌≡◌, ◌+◌, ◌-◌, ◌^◌, ◌<◌};
ghost use Rattle.routes.specs.Routes.{Passes};
ghost use Rattle.routes.specs.Paths.{more_at, less_at, more_along, less_along, ended_at};
ghost use Rattle.routes.specs.Stored.{with_along, with_through};
ghost use Rattle.rows.specs.Rows.{cell, written, row_number, SameRows};
ghost use Rattle.rows.specs.Held.{circuit_in};
ghost use Rattle.flows.specs.Kept.{flow, Changed};
ghost use Rattle.flows.specs.Stacks.{begun_at};

use rows::rows::{Row, Rows};

// One more in a row. One function for this and `lower` would ask for both that the number stays below 2^32 and that it is not 0.
fn raise(rows: &mut Rows, row: Row, wire: usize)
    requires wire { wire < rows.old.wires }
    requires few { cell rows.old.memory.now rows.old.wires (row_number row) wire + 1 < 2 ^ 32 }
    ensures same { SameRows rows.old rows.new }
    ensures memory { rows.new.memory.now ≡ written rows.old.memory.now rows.old.wires (row_number row) wire (cell rows.old.memory.now rows.old.wires (row_number row) wire + 1) }
{
    let old = rows.get(row, wire);
    rows.put(row, wire, old + 1);
}

// One less in a row.
fn lower(rows: &mut Rows, row: Row, wire: usize)
    requires wire { wire < rows.old.wires }
    requires some { 0 < cell rows.old.memory.now rows.old.wires (row_number row) wire }
    ensures same { SameRows rows.old rows.new }
    ensures memory { rows.new.memory.now ≡ written rows.old.memory.now rows.old.wires (row_number row) wire (cell rows.old.memory.now rows.old.wires (row_number row) wire - 1) }
{
    let old = rows.get(row, wire);
    rows.put(row, wire, old - 1);
}

// One unit more begins at a wire. This and the next three are one call each; one function of a row would have to say by cases which part of the flow changes.
pub fn begin_one(rows: &mut Rows, wire: usize)
    requires wire { wire < rows.old.wires }
    requires few { (flow rows.old).start wire + 1 < 2 ^ 32 }
    ensures same { SameRows rows.old rows.new }
    ensures flow { Changed rows.old.wires rows.old.memory.now (begun_at wire (flow rows.old)) rows.new.memory.now }
{
    raise(rows, Row::Start, wire);
}

// One unit more ends at a wire.
pub fn end_one(rows: &mut Rows, wire: usize)
    requires wire { wire < rows.old.wires }
    requires few { (flow rows.old).finish wire + 1 < 2 ^ 32 }
    ensures same { SameRows rows.old rows.new }
    ensures flow { Changed rows.old.wires rows.old.memory.now (ended_at wire (flow rows.old)) rows.new.memory.now }
{
    raise(rows, Row::Finish, wire);
}

// One unit more passes a wire.
pub fn pass_one(rows: &mut Rows, wire: usize)
    requires wire { wire < rows.old.wires }
    requires few { (flow rows.old).through wire + 1 < 2 ^ 32 }
    ensures same { SameRows rows.old rows.new }
    ensures flow { Changed rows.old.wires rows.old.memory.now (with_through (more_at wire (flow rows.old).through) (flow rows.old)) rows.new.memory.now }
{
    raise(rows, Row::Through, wire);
}

// One unit less passes a wire.
pub fn unpass_one(rows: &mut Rows, wire: usize)
    requires wire { wire < rows.old.wires }
    requires some { 0 < (flow rows.old).through wire }
    ensures same { SameRows rows.old rows.new }
    ensures flow { Changed rows.old.wires rows.old.memory.now (with_through (less_at wire (flow rows.old).through) (flow rows.old)) rows.new.memory.now }
{
    lower(rows, Row::Through, wire);
}

// One unit more goes on from a wire to one that it feeds.
pub fn send_on(rows: &mut Rows, from: u32, wire: usize)
    requires wire { wire < rows.old.wires }
    requires fed { Passes (circuit_in rows.old) wire from }
    requires few { (flow rows.old).along from wire + 1 < 2 ^ 32 }
    ensures same { SameRows rows.old rows.new }
    ensures flow { Changed rows.old.wires rows.old.memory.now (with_along (more_along from wire (flow rows.old).along) (flow rows.old)) rows.new.memory.now }
{
    if rows.get(Row::First, wire) == from {
        raise(rows, Row::FromFirst, wire);
    } else {
        raise(rows, Row::FromSecond, wire);
    }
}

// One unit less goes on from a wire to another.
pub fn take_back(rows: &mut Rows, from: u32, wire: usize)
    requires wire { wire < rows.old.wires }
    requires some { 0 < (flow rows.old).along from wire }
    ensures same { SameRows rows.old rows.new }
    ensures flow { Changed rows.old.wires rows.old.memory.now (with_along (less_along from wire (flow rows.old).along) (flow rows.old)) rows.new.memory.now }
{
    let first = rows.get(Row::First, wire);
    let units = rows.get(Row::FromFirst, wire);
    if first == from && units > 0 {
        lower(rows, Row::FromFirst, wire);
    } else {
        lower(rows, Row::FromSecond, wire);
    }
}
