// The two graphs of a planning over the rows of its memory, and what a search over them decides.
// The functions here carry theorems in their contracts, and do nothing.
#![tactic(auto)]

ghost use Rattle.graphs.specs.Fronts.{RowsInFront, ListsAreFed, LoadedByFront};
ghost use Rattle.graphs.specs.Outcomes.{ResidualOutcomes, LoadFeeds, ResidualDecides, BarredDecides};

pub mod barred;
mod front;
pub mod residual;

// The front of a memory has its rows; in a loaded one it has the lists of the wires that each wire feeds, and keeps them as long as it stays.
pub fn front_is_loaded()
    ensures { RowsInFront × ListsAreFed × LoadedByFront }
{}

// A path that a search finds over the residual graph is one to grow along; where it finds none, its marks close.
pub fn residual_decides()
    ensures { ResidualOutcomes × LoadFeeds × ResidualDecides }
{}

// A path that a search finds over the barred graph is a route of barred wires; where it finds none, no route has only barred wires.
pub fn barred_decides()
    ensures { BarredDecides }
{}
