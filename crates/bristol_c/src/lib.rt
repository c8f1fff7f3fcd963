// Reading for a caller in C or Rust. The entries lie in memory of their own, since no enum crosses.
#![tactic(auto)]

ghost use Rattle.std.specs.Prelude.{◌≡◌};
ghost use Rattle.bristol_c.specs.Reports.{reported, Told};

use reading::{CLEARED, LONGEST_TEXT, read_circuit};
use std::alloc::Global;
use tokens::fault::Fault;
use tokens::header::Header;

// The counts of a circuit, with the refusal 0; or the number of a refusal, with its line and byte: numbers, for a caller in C.
#[repr(C)]
#[derive(Clone, Copy)]
pub struct Report {
    pub refusal: u32,
    pub wires: u32,
    pub inputs: u32,
    pub outputs: u32,
    pub line: usize,
    pub byte: usize,
}

impl From<Result<Header, Fault>> for Report {
    ghost from_gives = { λ answer report. report ≡ reported answer };

    fn from(answer: Result<Header, Fault>) -> Report {
        match answer {
            Ok(header) => Report {
                refusal: 0,
                wires: header.wires,
                inputs: header.inputs,
                outputs: header.outputs,
                line: 0,
                byte: 0,
            },
            Err(fault) => Report {
                refusal: u32::from(fault.number()),
                wires: 0,
                inputs: 0,
                outputs: 0,
                line: fault.line,
                byte: fault.byte,
            },
        }
    }
}

// Reads a text of a circuit with at most as many wires as there are ranks. Whether there was memory for its entries.
#[unsafe(no_mangle)]
pub extern "C" fn bristol_read(
    heap: Global,
    text: &[u8],
    ranks: &mut [u32],
    report: &mut Report,
) -> bool
    ensures { Told result text.now ranks.old ranks.new report.old report.new }
{
    let Ok(mut table) = Vec::from_elem(heap, CLEARED, ranks.len()) else {
        return false;
    };
    *report = Report::from(read_circuit(text, LONGEST_TEXT, table.as_mut_slice(), ranks));
    true
}
