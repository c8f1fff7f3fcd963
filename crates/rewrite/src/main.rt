// Reads a circuit text from standard input and writes the circuit back to standard output, or says why it is refused and where.
#![tactic(auto)]

use circuits::answer::Refusal;
use reading::table::read_table;
use reading::{CLEARED, LONGEST_TEXT};
use std::alloc::{AllocError, Global};
use std::io;
use std::io::{Read, Write};
use tokens::fault::Fault;
use tokens::header::MOST_WIRES;
use writing::{text_length, write_circuit};

// Why no text is written: the text is refused, or the room for another, or there is no memory.
enum Stop {
    Fault(Fault),
    Refusal(Refusal),
    NoMemory(AllocError),
}

impl From<Fault> for Stop {
    fn from(fault: Fault) -> Stop {
        Stop::Fault(fault)
    }
}

impl From<Refusal> for Stop {
    fn from(refusal: Refusal) -> Stop {
        Stop::Refusal(refusal)
    }
}

impl From<AllocError> for Stop {
    fn from(e: AllocError) -> Stop {
        Stop::NoMemory(e)
    }
}

// The text of the circuit that a text means.
fn rewrite(heap: Global, text: &[u8]) -> Result<Vec<u8>, Stop> {
    let most = MOST_WIRES as usize;
    let mut table = Vec::from_elem(heap, CLEARED, most)?;
    let mut ranks = Vec::from_elem(heap, 0u32, most)?;
    let reading = read_table(
        text,
        LONGEST_TEXT,
        table.as_mut_slice(),
        ranks.as_mut_slice(),
    )?;
    let mut room = Vec::from_elem(heap, 0u8, text_length(&reading.circuit))?;
    write_circuit(&reading.circuit, room.as_mut_slice())?;
    Ok(room)
}

fn main(rt: HostRuntime) -> io::Result<()> {
    let mut text = Vec::new(rt.alloc());
    rt.stdin().read_to_end(&mut text)?;
    match rewrite(rt.alloc(), text.as_slice()) {
        Ok(written) => rt.stdout().write_all(written.as_slice()),
        Err(Stop::Fault(fault)) => println!(rt; "{fault}"),
        Err(Stop::Refusal(refusal)) => println!(rt; "{refusal}"),
        Err(Stop::NoMemory(e)) => Err(e.into()),
    }
}
