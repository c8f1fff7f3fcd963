ghost use Rattle.std.specs.Prelude.{◌≡◌, ◌<◌, ◌≤◌, length};
ghost use Rattle.routes.specs.Residuals.{border};
ghost use Rattle.flows.specs.Found.{marks};
ghost use Rattle.flows.specs.Listing.{Listing, count};

use rows::rows::{Row, View};

// Whether the entry of a wire is marked, and its exit not.
fn on_border(rows: &View, wire: usize) -> bool
    requires wire { wire < rows.now.wires }
    ensures { result ≡ border (marks rows.now.memory.now rows.now.wires) wire }
{
    let entry = Row::Marks.number() * rows.wires + 2 * wire;
    rows.memory[entry] != 0 && rows.memory[entry + 1] == 0
}

// Writes the wires of the border, ascending, and answers how many.
pub fn write_plan(rows: &View, out: &mut [u32]) -> usize
    requires long { count (border (marks rows.now.memory.now rows.now.wires)) rows.now.wires ≤ length out.old }
    ensures { Listing (border (marks rows.now.memory.now rows.now.wires)) rows.now.wires result out.old out.new }
{
    // A loop, since wires go by rank and how many were written is the answer.
    let mut len = 0;
    for w in 0..rows.wires {
        if on_border(rows, w) {
            out[len] = w as u32;
            len += 1;
        }
    }
    len
}
