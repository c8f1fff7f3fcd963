ghost use Rattle.std.specs.Prelude.{◌≡◌, ℕ, ◌+◌, ◌<◌, ◌≤◌, length};
ghost use Rattle.circuits.specs.Circuits.{width};
ghost use Rattle.routes.specs.Routes.{at, Ordered};
ghost use Rattle.rows.specs.Rows.{Wiped, SameRows, Between, Only};
ghost use Rattle.rows.specs.Held.{circuit_in};
ghost use Rattle.rows.specs.Fed.{fed_below, fed, Flagged, FreshLoad};
ghost use Rattle.rows.specs.Loading.{Family, with_use, Passed, Countable, Counted, Spaced, Placeable, FitsIn, Filled, ListRow, PlacedRow};

use crate::rows::{Row, Rows};
use circuits::circuit::Circuit;
use circuits::making::Making;

// Writes zeros from a place up to another.
pub fn wipe(memory: &mut [u32], from: usize, to: usize)
    requires order { from ≤ to }
    requires within { to ≤ length memory.old }
    ensures { Wiped memory.old memory.new from to }
{
    memory[from..to].fill(0);
}

// The loops go over wires by rank, since each reads and writes several rows at a wire.
// That the circuit is ordered is asked in three contracts: a ghost field would have to be shown again at each write.
impl<'a> Rows<'a> {
    // Asks the circuit how each wire is made, and writes it.
    fn put_makings<C: Circuit>(&mut self, circuit: &C)
        requires wires { self.old.wires ≡ width (C.meaning circuit.now) }
        ensures same { SameRows self.old self.new }
        ensures makings { circuit_in self.new ≡ (C.meaning circuit.now).makings }
    {
        for wire in 0..self.wires {
            if let Some(how) = circuit.making(wire as u32) {
                self.put_making(wire, how);
            }
        }
    }

    // Flags the operands of all products.
    fn flag_goals(&mut self)
        requires ordered { Ordered (circuit_in self.old) }
        requires flagged { Flagged (circuit_in self.old) self.old.wires self.old.memory.now 0 }
        ensures same { SameRows self.old self.new }
        ensures rest { Only (Between 4 4) self.old.wires self.old.memory.now self.new.memory.now }
        ensures flagged { Flagged (circuit_in self.old) self.old.wires self.new.memory.now self.old.wires }
    {
        for wire in 0..self.wires {
            if let Making::Product(a, b) = self.making(wire) {
                self.put(Row::Goals, a as usize, 1);
                self.put(Row::Goals, b as usize, 1);
            }
        }
    }

    // The operands that a wire passes on, which are two at most: each is counted and placed alone, and no list of them is needed.
    fn passed(&self, wire: usize) -> (Option<u32>, Option<u32>)
        requires { wire < self.now.wires }
        ensures { Passed (at (circuit_in self.now) wire) result.0 result.1 }
    {
        match self.making(wire) {
            Making::Copy(a) | Making::Inversion(a) => (Some(a), None),
            Making::Sum(a, b) => (Some(a), Some(b)),
            _ => (None, None),
        }
    }

    // Counts one wire more for an operand.
    fn count_use(&mut self, operand: Option<u32>)
        requires { Countable self.old.wires self.old.memory.now operand }
        ensures same { SameRows self.old self.new }
        ensures rest { Only (Between 5 5) self.old.wires self.old.memory.now self.new.memory.now }
        ensures counted { (L : Family) (w : ℕ) → Counted self.old.wires self.old.memory.now L → Counted self.old.wires self.new.memory.now (with_use L operand w) }
    {
        if let Some(a) = operand {
            let count = self.get(Row::Lists, a as usize);
            self.put(Row::Lists, a as usize, count + 1);
        }
    }

    // Counts the wires that each wire feeds.
    fn count_wires(&mut self)
        requires ordered { Ordered (circuit_in self.old) }
        requires counted { Counted self.old.wires self.old.memory.now (fed_below (circuit_in self.old) 0) }
        ensures same { SameRows self.old self.new }
        ensures rest { Only (Between 5 5) self.old.wires self.old.memory.now self.new.memory.now }
        ensures counted { Counted self.old.wires self.new.memory.now (fed_below (circuit_in self.old) self.old.wires) }
    {
        for wire in 0..self.wires {
            let (first, second) = self.passed(wire);
            self.count_use(first);
            self.count_use(second);
        }
    }

    // Puts in the place of each count where the list begins.
    fn space_lists(&mut self)
        requires { Counted self.old.wires self.old.memory.now (fed_below (circuit_in self.old) self.old.wires) }
        ensures same { SameRows self.old self.new }
        ensures rest { Only ListRow self.old.wires self.old.memory.now self.new.memory.now }
        ensures spaced { Spaced self.old.wires self.new.memory.now (fed_below (circuit_in self.old) self.old.wires) self.old.wires }
    {
        let mut total: u32 = 0;
        for wire in 0..self.wires {
            let count = self.get(Row::Lists, wire);
            self.put(Row::Lists, wire, total);
            self.put(Row::Marks, wire, total);
            total += count;
        }
    }

    // Adds a wire to the list of an operand.
    fn place_use(&mut self, operand: Option<u32>, wire: u32)
        requires { Placeable self.old.wires self.old.memory.now operand }
        ensures same { SameRows self.old self.new }
        ensures rest { Only PlacedRow self.old.wires self.old.memory.now self.new.memory.now }
        ensures filled { (A L : Family) → FitsIn self.old.wires A L operand → Filled self.old.wires self.old.memory.now A L → Filled self.old.wires self.new.memory.now A (with_use L operand wire) }
    {
        if let Some(a) = operand {
            let next = self.get(Row::Marks, a as usize);
            self.memory[Row::Fed.number() * self.wires + next as usize] = wire;
            self.put(Row::Marks, a as usize, next + 1);
        }
    }

    // Makes the lists of the wires that each wire feeds.
    fn place_wires(&mut self)
        requires ordered { Ordered (circuit_in self.old) }
        requires filled { Filled self.old.wires self.old.memory.now (fed (circuit_in self.old)) (fed_below (circuit_in self.old) 0) }
        ensures same { SameRows self.old self.new }
        ensures rest { Only PlacedRow self.old.wires self.old.memory.now self.new.memory.now }
        ensures filled { Filled self.old.wires self.new.memory.now (fed (circuit_in self.old)) (fed_below (circuit_in self.old) self.old.wires) }
    {
        for wire in 0..self.wires {
            let (first, second) = self.passed(wire);
            self.place_use(first, wire as u32);
            self.place_use(second, wire as u32);
        }
    }

    // Asks the circuit for its makings, once each, and writes all that a planning needs of it: no bar is set, and nothing flows.
    pub fn load<C: Circuit>(&mut self, circuit: &C)
        requires wires { self.old.wires ≡ width (C.meaning circuit.now) }
        ensures same { SameRows self.old self.new }
        ensures fresh { FreshLoad (C.meaning circuit.now).makings self.old.wires self.new.memory.now }
    {
        self.put_makings(circuit);
        self.clear(Row::Bars, Row::Marks);
        self.flag_goals();
        self.count_wires();
        self.space_lists();
        self.place_wires();
    }
}
