ghost use Rattle.std.specs.Prelude.{◌≡◌, ◌*◌, ◌^◌, ◌<◌, ◌≤◌, length};

use crate::load::wipe;

// How many rows there are.
pub const ROWS: usize = 24;

// The rows, in order, which numbers them. Where something takes two rows, the second has a name too.
#[derive(Clone, Copy, PartialEq, Eq, Debug)]
pub enum Row {
    // How a wire is made: its kind and its operands.
    Kind,
    First,
    Second,
    // Not 0 at a barred wire.
    Bars,
    // Not 0 at an operand of a product.
    Goals,
    // Where the wires that a wire feeds begin, in the two rows after this.
    Lists,
    Fed,
    FedSecond,
    // Units of the flow: those that begin, that come from the first operand and from the second, that end, and that pass.
    Start,
    FromFirst,
    FromSecond,
    Finish,
    Through,
    // The search's rows: two of marks, two of the stack, two of steps tried.
    Marks,
    MarksSecond,
    Stack,
    StackSecond,
    Tried,
    TriedSecond,
    // Of each wire, how many units end at lower wires.
    Ended,
    // Four rows without a use.
    Spare,
    SpareSecond,
    SpareThird,
    SpareFourth,
}

impl Row {
    ghost use Rattle.rows.specs.Rows.{row_number};

    // Its place in the order.
    pub fn number(self) -> usize
        ensures { result ≡ row_number self }
    {
        self as usize
    }
}

// The memory of a planning, as rows of as many numbers as there are wires.
#[derive(Drop)]
pub struct Rows<'a> {
    pub memory: &'a mut [u32],
    pub wires: usize,
    // No planning has more wires, and each has a number in every row.
    ghost few: { wires ≤ 2 ^ 20 },
    ghost rows: { 24 * wires ≤ length memory.now },
}

impl<'a> Rows<'a> {
    ghost use Rattle.rows.specs.Rows.{cell, written, row_number, SameRows, Wiped};

    // The same, to be read.
    pub fn view(&self) -> View<'_>
        ensures memory { result.memory.now ≡ self.now.memory.now }
        ensures wires { result.wires ≡ self.now.wires }
    {
        View {
            memory: self.memory,
            wires: self.wires,
        }
    }

    // The number of a wire in a row.
    pub fn get(&self, row: Row, wire: usize) -> u32
        requires { wire < self.now.wires }
        ensures { result ≡ cell self.now.memory.now self.now.wires (row_number row) wire }
    {
        self.view().get(row, wire)
    }

    // Writes the number of a wire in a row.
    pub fn put(&mut self, row: Row, wire: usize, number: u32)
        requires { wire < self.old.wires }
        ensures same { SameRows self.old self.new }
        ensures memory { self.new.memory.now ≡ written self.old.memory.now self.old.wires (row_number row) wire number }
    {
        let at = row.number() * self.wires + wire;
        self.memory[at] = number;
    }

    // Writes zeros from a row up to another.
    pub fn clear(&mut self, from: Row, to: Row)
        requires { row_number from ≤ row_number to }
        ensures same { SameRows self.old self.new }
        ensures memory { Wiped self.old.memory.now self.new.memory.now (row_number from * self.old.wires) (row_number to * self.old.wires) }
    {
        let wires = self.wires;
        wipe(self.memory, from.number() * wires, to.number() * wires);
    }
}

// Rows of a memory that is only read: who has no more than a shared reference makes this, and `Rows` reads by it.
#[derive(Clone, Copy)]
pub struct View<'a> {
    pub memory: &'a [u32],
    pub wires: usize,
    ghost few: { wires ≤ 2 ^ 20 },
    ghost rows: { 24 * wires ≤ length memory.now },
}

impl<'a> View<'a> {
    ghost use Rattle.rows.specs.Rows.{cell, row_number};

    // The number of a wire in a row.
    pub fn get(&self, row: Row, wire: usize) -> u32
        requires { wire < self.now.wires }
        ensures { result ≡ cell self.now.memory.now self.now.wires (row_number row) wire }
    {
        self.memory[row.number() * self.wires + wire]
    }
}
