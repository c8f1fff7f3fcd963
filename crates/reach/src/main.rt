// Searches a small graph of its own, and prints what is found.
#![tactic(auto)]

use circuits::answer::Refusal;
use listed::Flag::{self, Chosen, Goal, Plain};
use listed::Listed;
use search::graph::Graph;
use search::{Found, find, find_further, find_or_exhaust, mark_reached};
use std::alloc::{AllocError, Global};
use std::io;

const PLACES: u32 = 9;

const TARGETS: u32 = 11;

// Where the marks begin, past the lists, and where the stack does.
const MARKS: usize = 30;

const STACK: usize = 39;

const FLAGS: [Flag; 9] = [
    Chosen, Plain, Plain, Plain, Goal, Chosen, Plain, Goal, Plain,
];

// The last one is past the targets, so it counts as their end.
const OFFSETS: [u32; 10] = [0, 2, 3, 5, 5, 6, 7, 8, 10, 99];

// 77 is no place, so that step leads back to its own.
const STEPS: [u32; 11] = [1, 2, 3, 3, 4, 2, 6, 7, 6, 77, 0];

// The graph in the front of the memory, and as many zeros behind it as the search needs.
fn drawn(heap: Global) -> Result<Vec<u32>, AllocError> {
    FLAGS
        .iter()
        .map(|flag| *flag as u32)
        .chain(OFFSETS)
        .chain(STEPS)
        .chain([0; 3 * PLACES as usize])
        .collect(heap)
}

fn print_marked(rt: &HostRuntime, memory: &[u32]) -> io::Result<()> {
    print!(rt; "Reached:")?;
    let marks = memory.iter().skip(MARKS).take(PLACES as usize);
    for (place, _) in marks.enumerate().filter(|(_, mark)| **mark != 0) {
        print!(rt; " {place}")?;
    }
    println!(rt; "")
}

// Prints how a search ended, and answers the place to go on from.
fn print_outcome(
    rt: &HostRuntime,
    name: &str,
    outcome: Result<Option<Found>, Refusal>,
    memory: &[u32],
) -> io::Result<u32> {
    print!(rt; "{name}:")?;
    match outcome {
        Ok(Some(Found { length, next })) => {
            for place in memory.iter().skip(STACK).take(length as usize) {
                print!(rt; " {place}")?;
            }
            println!(rt; "")?;
            Ok(next)
        }
        Ok(None) => {
            println!(rt; " no goal")?;
            Ok(PLACES)
        }
        Err(refusal) => {
            let number = refusal.number();
            println!(rt; " refused by {number}, since the memory is too short")?;
            Ok(0)
        }
    }
}

fn begin(rt: &HostRuntime, graph: &Listed, memory: &mut [u32]) -> io::Result<u32> {
    if mark_reached(graph, memory).is_ok() {
        print_marked(rt, memory)?;
    }
    let outcome = find(graph, memory);
    print_outcome(rt, "A path to a goal", outcome, memory)
}

fn go_on(rt: &HostRuntime, graph: &Listed, memory: &mut [u32], from: u32) -> io::Result<u32> {
    let outcome = find_further(graph, memory, from);
    print_outcome(rt, "Going on", outcome, memory)
}

fn go_on_or_anew(
    rt: &HostRuntime,
    graph: &Listed,
    memory: &mut [u32],
    from: u32,
) -> io::Result<u32> {
    let outcome = find_or_exhaust(graph, memory, from);
    print_outcome(rt, "Going on, or anew", outcome, memory)
}

fn begin_short(rt: &HostRuntime, graph: &Listed) -> io::Result<u32> {
    let mut memory = drawn(rt.alloc())?;
    let _ = memory.pop();
    let outcome = find(graph, memory.as_mut_slice());
    print_outcome(rt, "With a number less", outcome, memory.as_slice())
}

fn run(rt: &HostRuntime, graph: &Listed, memory: &mut [u32]) -> io::Result<u32> {
    let second = begin(rt, graph, memory)?;
    let third = go_on(rt, graph, memory, second)?;
    let none = go_on(rt, graph, memory, third)?;
    go_on_or_anew(rt, graph, memory, none)
}

fn main(rt: HostRuntime) -> io::Result<()> {
    let Ok(graph) = Listed::new(PLACES, TARGETS) else {
        return println!(rt; "The graph is too large.");
    };
    let mut memory = drawn(rt.alloc())?;
    run(&rt, &graph, memory.as_mut_slice())?;
    begin_short(&rt, &graph)?;
    Ok(())
}
