// Reads a circuit from a Bristol Fashion text into lent memory.
#![tactic(auto)]

mod gates;
mod line;
mod made;
mod parts;
pub mod table;
mod wires;

ghost use Rattle.std.specs.Prelude.{◌≡◌, length, replicate};
ghost use Rattle.reading.specs.Accepted.{Answered};
ghost use Rattle.reading.specs.Texts.{outcome, answer, circuit_of, table_after, ranks_after, blank_entry};

use circuits::answer::Refusal;
use circuits::making::{Entry, Making};
use gates::read_body;
use tokens::cursor::Cursor;
use tokens::fault::Fault;
use tokens::header::Header;

// No text is longer than this, whatever limit a reading is given.
pub const LONGEST_TEXT: usize = 67_108_864;

// What stands in an entry that is cleared.
pub const CLEARED: Entry = Entry {
    making: Making::Constant(false),
    name: 0,
};

// The memory for a circuit as a refusal leaves it.
fn clear(table: &mut [Entry], ranks: &mut [u32])
    ensures table { table.new ≡ replicate (length table.old) blank_entry }
    ensures ranks { ranks.new ≡ replicate (length ranks.old) 0 }
{
    table.fill(CLEARED);
    ranks.fill(0);
}

// What `read_circuit` does, as far as the definition of the format says it; the last clause there follows from these three. Table and ranks are two slices, as a caller lends them:
// reading keeps to lent memory, and takes no heap.
fn read_into(
    text: &[u8],
    limit: usize,
    table: &mut [Entry],
    ranks: &mut [u32],
) -> Result<Header, Fault>
    ensures answer { result ≡ answer (outcome text.now limit table.old ranks.old) }
    ensures table { table.new ≡ table_after (outcome text.now limit table.old ranks.old) table.old }
    ensures ranks { ranks.new ≡ ranks_after (outcome text.now limit table.old ranks.old) ranks.old }
{
    if text.len() > limit || text.len() > LONGEST_TEXT {
        return Err(Fault::new(Refusal::TextTooLong, 1, 0));
    }
    let mut cursor = Cursor {
        text,
        at: 0,
        line: 1,
    };
    let header = cursor.header()?;
    let wires = header.wires as usize;
    if table.len() < wires || ranks.len() < wires {
        return Err(Fault::new(Refusal::MemoryTooShort, header.wires_line, header.wires_at));
    }
    let entries = &mut table[0..wires];
    let names = &mut ranks[0..wires];
    match read_body(&mut cursor, header, entries, names) {
        Ok(()) => Ok(header),
        Err(fault) => {
            clear(entries, names);
            Err(fault)
        }
    }
}

// Reads the circuit of a text no longer than the limit, and fills as many entries and ranks as it has wires.
// A refusal in the first three lines, or for the length or for want of memory, leaves the memory as it was; a later one
// clears as much of it as the circuit would take.
pub fn read_circuit(
    text: &[u8],
    limit: usize,
    table: &mut [Entry],
    ranks: &mut [u32],
) -> Result<Header, Fault>
    ensures answer { result ≡ answer (outcome text.now limit table.old ranks.old) }
    ensures table { table.new ≡ table_after (outcome text.now limit table.old ranks.old) table.old }
    ensures ranks { ranks.new ≡ ranks_after (outcome text.now limit table.old ranks.old) ranks.old }
    ensures answered { Answered text.now (circuit_of (outcome text.now limit table.old ranks.old)) result table.new ranks.new }
{
    read_into(text, limit, table, ranks)
}
