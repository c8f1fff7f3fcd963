// Reads a text and gives the circuit.
ghost use Rattle.std.specs.Prelude.{◌≡◌, ◌≤◌, length, take, if◌then◌else◌};
ghost use Rattle.circuits.specs.Tables.{tabled, lone, table_fits};
ghost use Rattle.reading.specs.Accepted.{Gives, or_lone};
ghost use Rattle.reading.specs.Readings.{answer_in, circuit_in};
ghost use Rattle.reading.specs.Texts.{outcome, answer, circuit_of};

use crate::read_circuit;
use circuits::making::Entry;
use circuits::table::Table;
use tokens::fault::Fault;
use tokens::header::Header;

// What the first three lines of a text say, with its circuit in the lent memory.
#[derive(Clone, Copy)]
pub struct Reading<'a> {
    pub header: Header,
    pub circuit: Table<'a>,
}

// The circuit in the first entries and ranks, as many as it has wires.
fn table_of<'a>(header: Header, table: &'a [Entry], ranks: &'a [u32]) -> Table<'a>
    requires entries { header.wires ≤ length table.now }
    requires ranks { header.wires ≤ length ranks.now }
    ensures { tabled result.entries.now result.inputs result.outputs ≡ (if table_fits (take header.wires table.now) (take header.wires ranks.now) header.inputs header.outputs then tabled (take header.wires table.now) header.inputs header.outputs else lone) }
{
    let wires = header.wires as usize;
    Table::new(
        &table[0..wires],
        &ranks[0..wires],
        header.inputs,
        header.outputs,
    )
}

// Reads as `read_circuit` does, and lends the memory to the circuit.
pub fn read_table<'a>(
    text: &[u8],
    limit: usize,
    table: &'a mut [Entry],
    ranks: &'a mut [u32],
) -> Result<Reading<'a>, Fault>
    ensures answer { answer_in result ≡ answer (outcome text.now limit table.old ranks.old) }
    ensures circuit { circuit_in result ≡ circuit_of (outcome text.now limit table.old ranks.old) }
    ensures gives { Gives text.now (answer_in result) (or_lone (circuit_in result)) }
{
    let header = read_circuit(text, limit, table, ranks)?;
    Ok(Reading {
        header,
        circuit: table_of(header, table, ranks),
    })
}

// The circuit of a reading, or a lone input where the text was refused.
pub fn circuit_or_lone<'a>(reading: Result<Reading<'a>, Fault>) -> Table<'a>
    ensures { tabled result.entries.now result.inputs result.outputs ≡ or_lone (circuit_in reading.entry) }
{
    match reading {
        Ok(reading) => reading.circuit,
        Err(_) => Table::new(&[], &[], 0, 0),
    }
}
