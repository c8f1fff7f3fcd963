// One depth-first search for every kind of graph.
#![tactic(auto)]

ghost use Rattle.search.specs.Searches.{MarksReached, Finds, FindsFurther, FindsAny};

use crate::goalless::Goalless;
use crate::graph::Graph;
use crate::walk::Walker;
use circuits::answer::Refusal;

mod goalless;
pub mod graph;
mod walk;

// A goal is found: a path of `length` places to it is on the stack, and `next` is the place number to go on from.
#[derive(Clone, Copy, PartialEq, Eq, Debug)]
pub struct Found {
    pub length: u32,
    pub next: u32,
}

// Four calls, each with a promise of its own: what a caller may rely on differs more than the bodies do.

// Marks exactly what steps reach from the chosen places.
pub fn mark_reached<G: Graph>(graph: &G, memory: &mut [u32]) -> Result<(), Refusal>
    ensures { MarksReached (G.meaning graph.now) memory.old memory.new result }
{
    let graph = Goalless { graph };
    let walker = Walker::over(&graph, memory)?;
    walker.clear(memory);
    walker.hunt(memory, 0);
    Ok(())
}

// Looks for a goal from the chosen places, with no place marked before. Where none is reached, exactly what steps reach is marked.
pub fn find<G: Graph>(graph: &G, memory: &mut [u32]) -> Result<Option<Found>, Refusal>
    ensures { Finds (G.meaning graph.now) memory.old memory.new result }
{
    let walker = Walker::over(graph, memory)?;
    walker.clear(memory);
    Ok(walker.hunt(memory, 0))
}

// Looks for a goal through places that are not marked yet, from the chosen places whose numbers are `from` or more.
#[tactic(auto, using(crate::proofs::Hunts::goes_on_at))]
pub fn find_further<G: Graph>(
    graph: &G,
    memory: &mut [u32],
    from: u32,
) -> Result<Option<Found>, Refusal>
    ensures { FindsFurther (G.meaning graph.now) memory.old memory.new from result }
{
    let walker = Walker::over(graph, memory)?;
    Ok(walker.hunt(memory, from))
}

// Goes on with the marks that are there, and where that finds no goal begins anew, so that there is none only where none is reached.
pub fn find_or_exhaust<G: Graph>(
    graph: &G,
    memory: &mut [u32],
    from: u32,
) -> Result<Option<Found>, Refusal>
    ensures { FindsAny (G.meaning graph.now) memory.old memory.new from result }
{
    match find_further(graph, memory, from)? {
        None => find(graph, memory),
        found => Ok(found),
    }
}
