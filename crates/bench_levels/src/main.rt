// How fast a level run is: over the widest matching circuit, and over a table of as many wires as a circuit may have.
//   bench_levels RUNS    times so many runs of each
#![tactic(auto)]

use anyhow::anyhow;
use circuits::circuit::Circuit;
use circuits::growth::Exponential;
use circuits::levels::level_run;
use circuits::making::{Entry, Making};
use circuits::matching::Matching;
use circuits::table::Table;
use std::alloc::{AllocError, Global};
use std::env;
use std::time::Instant;

const WIDTH: u32 = 4096;

const WIRES: u32 = 1_048_576;

const INPUTS: u32 = 64;

// A rank below `rank`, scattered.
fn scattered(rank: u32, salt: u32) -> u32 {
    rank.wrapping_mul(2_654_435_761)
        .wrapping_add(salt)
        .rotate_left(13)
        % rank.max(1)
}

// One wire in four a product, the others sums, copies and inversions: the rank is a number to scatter them by, and no kind.
fn making_at(rank: u32) -> Making {
    if rank < INPUTS {
        return Making::Input;
    }
    let a = scattered(rank, 1);
    let b = scattered(rank, 7);
    match rank % 4 {
        0 => Making::Product(a, b),
        1 => Making::Sum(a, b),
        2 => Making::Inversion(a),
        _ => Making::Copy(b),
    }
}

fn entries(heap: Global) -> Result<Vec<Entry>, AllocError> {
    (0..WIRES)
        .map(|rank| Entry {
            making: making_at(rank),
            name: rank,
        })
        .collect(heap)
}

fn numbers(heap: Global, from: u32, to: u32) -> Result<Vec<u32>, AllocError> {
    (from..to).collect(heap)
}

// Every product refreshed, so that the run goes through the whole table.
fn products(heap: Global) -> Result<Vec<u32>, AllocError> {
    (INPUTS..WIRES).filter(|rank| rank % 4 == 0).collect(heap)
}

fn time_runs<C: Circuit>(
    rt: &HostRuntime,
    title: &str,
    circuit: &C,
    plan: &[u32],
    runs: u32,
) -> anyhow::Result<()> {
    let wires = circuit.wires();
    let mut memory = vec![in rt.alloc(); 0u32; wires as usize]?;
    let start = Instant::now(rt)?;
    let clean = (0..runs)
        .filter(|_| level_run(circuit, plan, &Exponential, &mut memory) == Ok(None))
        .count();
    let nanos = start.elapsed(rt)?.as_nanos().max(1);
    let speed = u128::from(wires) * u128::from(runs) * 1_000_000_000 / nanos;
    println!(rt; "{title}: {wires} wires, {clean} clean runs of {runs}, {speed} wires per second")?;
    Ok(())
}

fn run(rt: &HostRuntime) -> anyhow::Result<()> {
    let Some(word) = env::args(rt)?.nth(1) else {
        println!(rt; "usage: bench_levels RUNS")?;
        return Ok(());
    };
    let runs = word.as_str().parse::<u32>()?;
    let Ok(matching) = Matching::new(WIDTH) else {
        return Err(anyhow!("no such matching circuit"));
    };
    let plan = numbers(rt.alloc(), 4 * WIDTH, 5 * WIDTH - 2)?;
    time_runs(rt, "matching circuit", &matching, plan.as_slice(), runs)?;
    let list = entries(rt.alloc())?;
    let ranks = numbers(rt.alloc(), 0, WIRES)?;
    let table = Table::new(list.as_slice(), ranks.as_slice(), INPUTS, 1);
    let plan = products(rt.alloc())?;
    time_runs(rt, "table", &table, plan.as_slice(), runs)
}

fn main(rt: HostRuntime) -> anyhow::Result<()> {
    run(&rt)
}
