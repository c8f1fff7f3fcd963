// Reads each text of a table, and says where an answer is not the one in the table.
#![tactic(auto)]

mod cases;

use cases::{CASES, Case, Left, Place};
use circuits::making::{Entry, Making};
use reading::{LONGEST_TEXT, read_circuit};
use std::alloc::{AllocError, Global};
use std::io;
use tokens::fault::{Fault, Reader};
use tokens::header::{Header, MOST_WIRES};

const FILLER: Entry = Entry {
    making: Making::Copy(77),
    name: 77,
};

// What a refusal is to leave: a value of this program's own, and not the one that the reader fills with.
const CLEARED: Entry = Entry {
    making: Making::Constant(false),
    name: 0,
};

// Where a text is refused, if it is.
fn place(answer: Result<Header, Fault>) -> Option<Place> {
    let fault = answer.err()?;
    Some(Place(fault.number(), fault.line, fault.byte, fault.reader))
}

// What the memory must hold at a place after a reading, where it was filler before.
fn expected(left: Left, k: usize, entry: Entry, rank: u32) -> (Entry, u32) {
    match left {
        Left::Cleared(wires) if k < wires => (CLEARED, 0),
        Left::Filled(wires) if k < wires => (entry, rank),
        _ => (FILLER, FILLER.name),
    }
}

fn is_left(table: &[Entry], ranks: &[u32], left: Left) -> bool {
    table.iter().zip(ranks).enumerate().all(|(k, (entry, rank))| (*entry, *rank)
        == expected(left, k, *entry, *rank))
}

// Whether a text gets the answer in the table.
fn agrees(case: Case) -> bool {
    let Case(text, refused, left) = case;
    let mut table = [FILLER; 5];
    let mut ranks = [FILLER.name; 5];
    let answer = read_circuit(text, LONGEST_TEXT, &mut table, &mut ranks);
    place(answer) == refused && is_left(&table, &ranks, left)
}

// The numbers that a text longer than its limit, and one longer than any may be, are refused by.
fn too_long(heap: Global) -> Result<(u8, u8), AllocError> {
    let spaces = Vec::from_elem(heap, b' ', LONGEST_TEXT + 1)?;
    let short = read_circuit(b"2 4\n", 3, &mut [], &mut []);
    let long = read_circuit(spaces.as_slice(), spaces.len(), &mut [], &mut []);
    Ok((shown(place(short)).0, shown(place(long)).0))
}

// The number of wires of the largest circuit, all inputs.
fn largest(heap: Global) -> Result<u32, AllocError> {
    let mut table = Vec::from_elem(heap, FILLER, MOST_WIRES as usize)?;
    let mut ranks = Vec::from_elem(heap, 0u32, MOST_WIRES as usize)?;
    let answer = read_circuit(
        b"0 1048576\n1 1048576\n0\n",
        LONGEST_TEXT,
        table.as_mut_slice(),
        ranks.as_mut_slice(),
    );
    Ok(answer.map_or(0, |header| header.wires))
}

// A place as it is printed: with zeros, and the circuit reader, for a text that is accepted, so that all lines have one form.
fn shown(refused: Option<Place>) -> Place {
    refused.unwrap_or(Place(0, 0, 0, Reader::Circuit))
}

fn main(rt: HostRuntime) -> io::Result<()> {
    for (i, case) in CASES.iter().enumerate() {
        let Case(_, refused, left) = *case;
        let Place(number, line, byte, reader) = shown(refused);
        let verdict = if agrees(*case) { "as told" } else { "WRONG" };
        println!(rt; "{i}: {number} line {line} byte {byte} {reader:?} {left:?}: {verdict}")?;
    }
    let (short, long) = too_long(rt.alloc())?;
    let wires = largest(rt.alloc())?;
    println!(rt; "past a limit {short}, past every limit {long}, {wires} wires read")
}
