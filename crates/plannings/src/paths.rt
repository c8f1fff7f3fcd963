ghost use Rattle.rows.specs.Rows.{SameRows};
ghost use Rattle.plannings.specs.Searching.{Searched};
ghost use Rattle.graphs.specs.Meanings.{residual_graph, barred_graph};

use graphs::barred::Barred;
use graphs::residual::Residual;
use rows::rows::Rows;
use search::{Found, find, find_or_exhaust};

// Looks for a route of barred wires. The rows are of few enough wires and long enough for a search, so that neither refusal comes.
pub fn barred_path(rows: &mut Rows) -> Option<Found>
    ensures same { SameRows rows.old rows.new }
    ensures searched { Searched (barred_graph rows.old.wires) rows.old.memory.now rows.new.memory.now result }
{
    let Ok(graph) = Barred::new(rows.wires as u32) else {
        unreachable()
    };
    let Ok(found) = find(&graph, rows.memory) else {
        unreachable()
    };
    found
}

// Looks for a path for one unit more, going on from a place number with the marks that are there; with no route yet, from the start.
// Not one function with the first: that has one search for its graph, and this one two.
pub fn unit_path(rows: &mut Rows, routes: usize, from: u32) -> Option<Found>
    ensures same { SameRows rows.old rows.new }
    ensures searched { Searched (residual_graph rows.old.wires) rows.old.memory.now rows.new.memory.now result }
{
    let Ok(graph) = Residual::new(rows.wires as u32) else {
        unreachable()
    };
    let ended = if routes == 0 {
        find(&graph, rows.memory)
    } else {
        find_or_exhaust(&graph, rows.memory, from)
    };
    let Ok(found) = ended else { unreachable() };
    found
}
