// Writes a circuit as a Bristol Fashion text into lent memory.
#![tactic(auto)]

mod lines;
pub mod page;
pub mod text;

ghost use Rattle.std.specs.Prelude.{◌≡◌, length, drop};
ghost use Rattle.reading.specs.Texts.{entry_at};
ghost use Rattle.writing.specs.Pages.{Puts};
ghost use Rattle.writing.specs.Writes.{making_text, wires_text, name_of, table_of, written, answered, left, ReadsBack};

use crate::page::Page;
use crate::text::{Text, measure, write_text};
use circuits::answer::Refusal;
use circuits::circuit::Circuit;
use circuits::making::Making;

// The text of a circuit.
#[derive(Drop)]
struct CircuitText<'a, C> {
    circuit: &'a C,
}

impl<'a, C: Circuit> CircuitText<'a, C> {
    #[tactic(auto, using(crate::proofs::Sounds::name_is))]
    fn name(&self, rank: u32) -> u32
        ensures { result ≡ name_of (table_of (C.meaning self.now.circuit.now)) rank }
    {
        self.circuit.name(rank).unwrap_or(0)
    }

    #[tactic(auto, using(crate::proofs::Sounds::making_is))]
    fn making(&self, rank: u32) -> Making
        ensures { result ≡ (entry_at (table_of (C.meaning self.now.circuit.now)) rank).making }
    {
        self.circuit.making(rank).unwrap_or(Making::Constant(false))
    }

    // The line of a wire; an input has none.
    fn put_wire(&self, page: &mut Page, rank: u32)
        ensures { Puts page.old (making_text (table_of (C.meaning self.now.circuit.now)) (entry_at (table_of (C.meaning self.now.circuit.now)) rank).making (name_of (table_of (C.meaning self.now.circuit.now)) rank)) page.new }
    {
        let name = self.name(rank);
        match self.making(rank) {
            Making::Input => {}
            Making::Constant(b) => page.put_gate(&[u32::from(b)], name, b"EQ"),
            Making::Copy(a) => page.put_gate(&[self.name(a)], name, b"EQW"),
            Making::Inversion(a) => page.put_gate(&[self.name(a)], name, b"INV"),
            Making::Sum(a, b) => page.put_gate(&[self.name(a), self.name(b)], name, b"XOR"),
            Making::Product(a, b) => page.put_gate(&[self.name(a), self.name(b)], name, b"AND"),
        }
    }

    // A line for each wire that is no input.
    fn put_wires(&self, page: &mut Page)
        ensures { Puts page.old (wires_text (table_of (C.meaning self.now.circuit.now)) (drop (C.meaning self.now.circuit.now).inputs (table_of (C.meaning self.now.circuit.now)))) page.new }
    {
        let first = self.circuit.inputs();
        // No slice to walk: a circuit is asked for the wire of a rank.
        for rank in first..self.circuit.wires() {
            self.put_wire(page, rank);
        }
    }
}

impl<'a, C: Circuit> Text for CircuitText<'a, C> {
    ghost bytes = { λ w. written (C.meaning w.circuit.now) };

    fn put(&self, page: &mut Page) {
        let circuit = self.circuit;
        page.put_head(circuit.wires(), circuit.inputs(), circuit.outputs());
        self.put_wires(page);
    }
}

// How many bytes a circuit's text has.
#[tactic(auto, using(crate::proofs::Sounds::short))]
pub fn text_length<C: Circuit>(circuit: &C) -> usize
    ensures { result ≡ length (written (C.meaning circuit.now)) }
{
    measure(&CircuitText { circuit })
}

// Writes a circuit's text into the room, and answers its length. A room that is too short is refused, and left as it was.
pub fn write_circuit<C: Circuit>(circuit: &C, room: &mut [u8]) -> Result<usize, Refusal>
    ensures answer { result ≡ answered (written (C.meaning circuit.now)) (length room.old) }
    ensures room { room.new ≡ left (written (C.meaning circuit.now)) room.old }
    ensures back { ReadsBack (C.meaning circuit.now) }
{
    write_text(&CircuitText { circuit }, room)
}
