// How fast a planning is: reads a circuit's text from standard input, steps to the end, and tells the times.
//   bench_plannings time < CIRCUIT
#![tactic(auto)]

use circuits::answer::Refusal;
use circuits::circuit::Circuit;
use plannings::run_calls;
use reading::table::{circuit_or_lone, read_table};
use reading::{CLEARED, LONGEST_TEXT};
use runs::calls::{Answer, Call, Stepped};
use std::env;
use std::io::Read;
use std::time::Instant;
use tokens::header::MOST_WIRES;

// What a planning asks for.
const NUMBERS_PER_WIRE: usize = 24;

fn count_grown(answers: &[Result<Answer, Refusal>]) -> usize {
    answers
        .iter()
        .filter(|answer| **answer == Ok(Answer::Stepped(Stepped::Grown)))
        .count()
}

fn time(rt: &HostRuntime) -> anyhow::Result<()> {
    let heap = rt.alloc();
    let mut text = Vec::new(heap);
    rt.stdin().read_to_end(&mut text)?;
    let most = MOST_WIRES as usize;
    let mut table = Vec::from_elem(heap, CLEARED, most)?;
    let mut ranks = Vec::from_elem(heap, 0u32, most)?;
    let start = Instant::now(rt)?;
    let answer = read_table(
        text.as_slice(),
        LONGEST_TEXT,
        table.as_mut_slice(),
        ranks.as_mut_slice(),
    );
    let read = start.elapsed(rt)?.as_micros();
    let circuit = circuit_or_lone(answer);
    let wires = circuit.wires() as usize;
    let mut calls = Vec::from_elem(heap, Call::Step, wires.saturating_add(1))?;
    calls.push(Call::Plan(wires))?;
    let mut memory = Vec::from_elem(heap, 0u32, wires.saturating_mul(NUMBERS_PER_WIRE))?;
    let mut room = Vec::from_elem(heap, 0u32, wires)?;
    let mut answers = Vec::from_elem(heap, Ok(Answer::Done), calls.len())?;
    let start = Instant::now(rt)?;
    let done = run_calls(
        &circuit,
        memory.as_mut_slice(),
        calls.as_slice(),
        room.as_mut_slice(),
        answers.as_mut_slice(),
    );
    let planned = start.elapsed(rt)?.as_micros();
    match done {
        Ok(()) => {
            let k = count_grown(answers.as_slice());
            println!(rt; "wires {wires}, k {k}, reading {read} us, planning {planned} us")?;
        }
        Err(refusal) => println!(rt; "refused: {refusal}")?,
    }
    Ok(())
}

fn run(rt: &HostRuntime) -> anyhow::Result<()> {
    match env::args(rt)?.nth(1) {
        Some(_) => time(rt),
        None => {
            println!(rt; "usage: bench_plannings time < CIRCUIT")?;
            Ok(())
        }
    }
}

fn main(rt: HostRuntime) -> anyhow::Result<()> {
    run(&rt)
}
