// Works out a matching circuit and runs levels on it, with and without a plan.
//   levels                    the built-in examples
//   levels WIDTH [RANK ..]    the matching circuit of that width, with the ranks as its plan
#![tactic(auto)]

use anyhow::anyhow;
use circuits::answer::Overrun;
use circuits::circuit::Circuit;
use circuits::growth::{Exponential, Linear, LinearTwenty, Scheme};
use circuits::levels::level_run;
use circuits::making::{Entry, Making};
use circuits::matching::Matching;
use circuits::table::Table;
use std::env;

fn show_shape<C: Circuit>(rt: &HostRuntime, title: &str, circuit: &C) -> anyhow::Result<()> {
    let wires = circuit.wires();
    let inputs = circuit.inputs();
    let outputs = circuit.outputs();
    println!(rt; "{title}: wires {wires}, inputs {inputs}, outputs {outputs}")?;
    Ok(())
}

fn show_run<C: Circuit, S: Scheme>(
    rt: &HostRuntime,
    circuit: &C,
    plan: &[u32],
    scheme: &S,
    title: &str,
) -> anyhow::Result<()> {
    let limit = scheme.limit_level();
    print!(rt; "  plan {plan:?}, {title}, limit {limit}: ")?;
    let mut memory = vec![in rt.alloc(); 0u32; circuit.wires() as usize]?;
    match level_run(circuit, plan, scheme, &mut memory) {
        Ok(None) => println!(rt; "clean, outgoing levels {memory:?}")?,
        Ok(Some(Overrun { rank, level })) => println!(rt;
            "the wire at rank {rank} has level {level}"
        )?,
        Err(refusal) => {
            let number = refusal.number();
            println!(rt; "refused by {number}: {refusal}")?;
        }
    }
    Ok(())
}

fn show_matching(rt: &HostRuntime, width: u32, plan: &[u32]) -> anyhow::Result<()> {
    match Matching::new(width) {
        Ok(circuit) => {
            let title = format!(in rt.alloc(); "The matching circuit of width {width}")?;
            show_shape(rt, title.as_str(), &circuit)?;
            show_run(rt, &circuit, &[], &Exponential, "exponential")?;
            show_run(rt, &circuit, plan, &Exponential, "exponential")?;
            show_run(rt, &circuit, plan, &Linear, "linear")?;
            show_run(rt, &circuit, plan, &LinearTwenty, "linear")?;
        }
        Err(refusal) => {
            let number = refusal.number();
            println!(rt;
                "The matching circuit of width {width} is refused by {number}: {refusal}"
            )?;
        }
    }
    Ok(())
}

const CHAIN: [Entry; 5] = [
    Entry {
        making: Making::Input,
        name: 0,
    },
    Entry {
        making: Making::Input,
        name: 1,
    },
    Entry {
        making: Making::Product(0, 1),
        name: 2,
    },
    Entry {
        making: Making::Product(2, 0),
        name: 3,
    },
    Entry {
        making: Making::Product(3, 0),
        name: 4,
    },
];

// A refresh of rank 3 comes too late: its own level has passed the limit by then.
fn show_chain(rt: &HostRuntime) -> anyhow::Result<()> {
    let chain = CHAIN;
    let ranks = [0, 1, 2, 3, 4];
    let circuit = Table::new(&chain, &ranks, 2, 1);
    show_shape(
        rt,
        "The chain of products 2 = 0*1, 3 = 2*0, 4 = 3*0",
        &circuit,
    )?;
    show_run(rt, &circuit, &[3], &Exponential, "exponential")?;
    show_run(rt, &circuit, &[2, 3], &Exponential, "exponential")
}

fn show_examples(rt: &HostRuntime) -> anyhow::Result<()> {
    show_matching(rt, 4, &[16, 17])?;
    show_matching(rt, 4, &[17, 16])?;
    show_matching(rt, 4097, &[])?;
    show_chain(rt)
}

fn number(word: &str) -> anyhow::Result<u32> {
    word.parse::<u32>()
        .map_err(|_| anyhow!("usage: levels [WIDTH [RANK ..]]"))
}

fn run(rt: &HostRuntime) -> anyhow::Result<()> {
    let numbers: Vec<u32> = env::args(rt)?
        .skip(1)
        .map(|word| number(word.as_str()))
        .try_collect(rt.alloc())?;
    match numbers.as_slice() {
        [] => show_examples(rt),
        [width, plan @ ..] => show_matching(rt, *width, plan),
    }
}

fn main(rt: HostRuntime) -> anyhow::Result<()> {
    run(&rt)
}
