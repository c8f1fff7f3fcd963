// The printed plan of a circuit's text.
#![tactic(auto)]

mod lines;

ghost use Rattle.std.specs.Prelude.{◌≡◌, ◌*◌, ◌≤◌, true, length, take, drop, nat_lt};
ghost use Rattle.circuits.specs.Tables.{table_fits, makings_of};
ghost use Rattle.plannings.specs.Running.{PlansFree};
ghost use Rattle.reading.specs.Texts.{outcome, table_after};
ghost use Rattle.printing.specs.Printed.{wires_read, short_for, Printed, LeavesRanks};

use crate::lines::{write_fault, write_plan};
use circuits::answer::Refusal;
use circuits::making::Entry;
use circuits::table::Table;
use plannings::finish;
use plannings::planning::Planning;
use reading::read_circuit;
use rows::rows::ROWS;
use tokens::header::Header;

// Plans the circuit of a table, and leaves the plan at the front of the ranks. Refused where the memory is too short for the planning.
// Not `plan_circuit`, whose room could not be the ranks that the circuit is read from.
fn plan_table(
    header: Header,
    entries: &[Entry],
    ranks: &mut [u32],
    memory: &mut [u32],
) -> Result<usize, Refusal>
    requires room { length entries.now ≤ length ranks.old }
    requires fits { table_fits entries.now (take (length entries.now) ranks.old) header.inputs header.outputs ≡ true }
    ensures planned { PlansFree (makings_of entries.now) (nat_lt (length memory.old) (24 * length entries.now)) ranks.old result ranks.new }
    ensures past { drop (24 * length entries.now) memory.new ≡ drop (24 * length entries.now) memory.old }
{
    let wires = entries.len();
    if memory.len() < ROWS * wires {
        return Err(Refusal::MemoryTooShort);
    }
    let circuit = Table::new(entries, &ranks[0..wires], header.inputs, header.outputs);
    let mut planning = Planning::new(&circuit, &mut memory[0..ROWS * wires]);
    finish(&mut planning, wires as u32, ranks)
}

// Plans the circuit of a text no longer than the limit, with nothing barred, and writes the plan by name, or the first fault of the text, at the
// front of the output, and answers how many bytes that is. All four memories are lent, since printing takes nothing from the heap. An output or a memory for the planning that is too short is refused, and nothing is written.
pub fn print(
    limit: usize,
    text: &[u8],
    table: &mut [Entry],
    ranks: &mut [u32],
    memory: &mut [u32],
    out: &mut [u8],
) -> Result<usize, Refusal>
    ensures printed { Printed (outcome text.now limit table.old ranks.old) (length memory.old) out.old result out.new }
    ensures table { table.new ≡ table_after (outcome text.now limit table.old ranks.old) table.old }
    ensures ranks { LeavesRanks (outcome text.now limit table.old ranks.old) (short_for (outcome text.now limit table.old ranks.old) (length memory.old)) ranks.old ranks.new }
    ensures past { drop (24 * wires_read (outcome text.now limit table.old ranks.old)) memory.new ≡ drop (24 * wires_read (outcome text.now limit table.old ranks.old)) memory.old }
{
    match read_circuit(text, limit, table, ranks) {
        Ok(header) => {
            let entries = &table[0..header.wires as usize];
            let count = plan_table(header, entries, ranks, memory)?;
            write_plan(out, entries, &ranks[0..count])
        }
        Err(fault) => write_fault(out, fault),
    }
}
