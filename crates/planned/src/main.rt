// Runs lists of calls on plannings of built-in circuits, through the call that carries the law of runs, and prints each answer.
#![tactic(auto)]

use circuits::answer::Refusal;
use circuits::making::{Entry, Making};
use circuits::table::Table;
use plannings::run_calls;
use runs::calls::{Answer, Call};
use std::alloc::{AllocError, Global};

// A room that is long enough for every plan and route of the circuits here.
const ROOM: usize = 9;

// How much memory a planning takes, as `run_calls` says.
const NUMBERS_PER_WIRE: usize = 24;

// The inputs and then the produced wires, each named by its rank.
fn entries(heap: Global, inputs: u32, produced: &[Making]) -> Result<Vec<Entry>, AllocError> {
    (0..inputs)
        .map(|_| Making::Input)
        .chain(produced.iter().copied())
        .zip(0..u32::MAX)
        .map(|(making, name)| Entry { making, name })
        .collect(heap)
}

fn show_answer(
    rt: &HostRuntime,
    answer: Result<Answer, Refusal>,
    written: &[u32],
) -> anyhow::Result<()> {
    match answer {
        Ok(Answer::Done) => println!(rt; "done")?,
        Ok(Answer::Stepped(stepped)) => println!(rt; "{stepped}")?,
        Ok(Answer::Planned(_) | Answer::Routed(_)) => println!(rt; "{written:?}")?,
        Err(refusal) => {
            let number = refusal.number();
            println!(rt; "refused by {number}: {refusal}")?;
        }
    }
    Ok(())
}

// How many numbers of its room a call wrote.
fn count_written(answer: Result<Answer, Refusal>) -> usize {
    match answer {
        Ok(Answer::Planned(count) | Answer::Routed(count)) => count,
        _ => 0,
    }
}

fn show_all(
    rt: &HostRuntime,
    calls: &[Call],
    answers: &[Result<Answer, Refusal>],
    room: &[u32],
) -> anyhow::Result<()> {
    let mut rest = room;
    for (call, answer) in calls.iter().zip(answers.iter()) {
        print!(rt; "  {call}: ")?;
        let lent = call.room().min(rest.len());
        let (mine, others) = rest.split_at(lent);
        let count = count_written(*answer).min(mine.len());
        show_answer(rt, *answer, &mine[0..count])?;
        rest = others;
    }
    Ok(())
}

fn show_run(
    rt: &HostRuntime,
    title: &str,
    inputs: u32,
    produced: &[Making],
    calls: &[Call],
) -> anyhow::Result<()> {
    println!(rt; "{title}")?;
    let heap = rt.alloc();
    let list = entries(heap, inputs, produced)?;
    let names: Vec<u32> = list.iter().map(|entry| entry.name).collect(heap)?;
    let circuit = Table::new(list.as_slice(), names.as_slice(), inputs, 1);
    let mut memory = vec![in heap; 0u32; list.len().saturating_mul(NUMBERS_PER_WIRE)]?;
    let mut room = vec![in heap; 0u32; calls.len().saturating_mul(ROOM)]?;
    let mut answers = vec![in heap; Ok(Answer::Done); calls.len()]?;
    match run_calls(
        &circuit,
        memory.as_mut_slice(),
        calls,
        room.as_mut_slice(),
        answers.as_mut_slice(),
    ) {
        Ok(()) => show_all(rt, calls, answers.as_slice(), room.as_slice()),
        Err(refusal) => {
            let number = refusal.number();
            println!(rt; "  refused by {number}: {refusal}")?;
            Ok(())
        }
    }
}

fn show_two_products(rt: &HostRuntime) -> anyhow::Result<()> {
    let produced = [
        Making::Product(0, 1),
        Making::Product(2, 3),
        Making::Product(4, 5),
    ];
    let calls = [
        Call::Plan(ROOM),
        Call::Step,
        Call::Step,
        Call::Step,
        Call::Step,
        Call::Plan(1),
        Call::Plan(ROOM),
        Call::Route(0, ROOM),
        Call::Route(1, ROOM),
        Call::Route(2, ROOM),
    ];
    show_run(
        rt,
        "Two products into one: 4 = 0*1, 5 = 2*3, 6 = 4*5",
        4,
        &produced,
        &calls,
    )
}

fn show_bars(rt: &HostRuntime) -> anyhow::Result<()> {
    let produced = [
        Making::Product(0, 1),
        Making::Inversion(2),
        Making::Product(3, 0),
    ];
    let calls = [
        Call::Bar(0),
        Call::Bar(2),
        Call::Bar(2),
        Call::Step,
        Call::Step,
        Call::Plan(ROOM),
        Call::Bar(3),
        Call::Step,
        Call::Plan(ROOM),
        Call::Route(0, ROOM),
        Call::Route(1, ROOM),
        Call::Unbar(2),
        Call::Step,
        Call::Step,
        Call::Plan(ROOM),
        Call::Route(0, 4),
    ];
    show_run(
        rt,
        "An inversion between two products: 2 = 0*1, 3 = not 2, 4 = 3*0",
        2,
        &produced,
        &calls,
    )
}

fn show_meeting(rt: &HostRuntime) -> anyhow::Result<()> {
    let produced = [
        Making::Product(0, 1),
        Making::Product(2, 3),
        Making::Sum(4, 5),
        Making::Product(6, 0),
        Making::Product(6, 1),
    ];
    let calls = [
        Call::Step,
        Call::Step,
        Call::Plan(ROOM),
        Call::Route(0, ROOM),
    ];
    show_run(
        rt,
        "Two products meet in a sum: 4 = 0*1, 5 = 2*3, 6 = 4+5, 7 = 6*0, 8 = 6*1",
        4,
        &produced,
        &calls,
    )
}

fn run(rt: &HostRuntime) -> anyhow::Result<()> {
    show_two_products(rt)?;
    show_meeting(rt)?;
    show_bars(rt)
}

fn main(rt: HostRuntime) -> anyhow::Result<()> {
    run(&rt)
}
