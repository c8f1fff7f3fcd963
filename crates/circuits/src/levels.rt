ghost use Rattle.std.specs.Prelude.{◌≡◌, ℕ, ◌+◌, ◌<◌, ◌≤◌, true, ◌&&◌, [], length, nat_le, slice_index, slice_index_or};
ghost use Rattle.circuits.specs.Circuits.{width, Feeds};
ghost use Rattle.circuits.specs.Growths.{Level};
ghost use Rattle.circuits.specs.Levels.{rules, own, run_from, produced, produced_at, plan_fits, over, level_run, Ran, LevelLaws};
ghost use Rattle.circuits.specs.declared.making.Making.TheVariants.{Input};

use crate::answer::{Overrun, Refusal};
use crate::circuit::Circuit;
use crate::growth::Scheme;
use crate::making::Making;

fn is_produced<C: Circuit>(circuit: &C, rank: u32) -> bool
    ensures { result ≡ produced_at (C.meaning circuit.now).makings rank }
{
    circuit.making(rank).is_some_and(Making::is_produced)
}

// Whether the ranks are strictly ascending, and those of produced wires: one walk, which ends at the first rank that does not fit.
fn plan_fits<C: Circuit>(circuit: &C, plan: &[u32]) -> bool
    ensures { result ≡ plan_fits (C.meaning circuit.now).makings 0 plan.now }
{
    plan.first().is_none_or(|rank| is_produced(circuit, *rank))
        && plan.is_sorted_by(|a, b| a < b && is_produced(circuit, *b))
}

// The own level of a wire so made, after those whose outgoing levels are given.
fn level_of<S: Scheme>(scheme: &S, making: Making, before: &[u32]) -> u32
    requires fed { Feeds (length before.now) making }
    requires levels { (k : ℕ) → k < length before.now → Level (slice_index before.now k) }
    ensures is { result ≡ own (S.tables scheme.now) before.now making }
    ensures least { 1 ≤ result }
{
    match making {
        Making::Input | Making::Constant(_) => 1,
        Making::Copy(a) | Making::Inversion(a) => before[a as usize],
        Making::Sum(a, b) => scheme.sum(before[a as usize], before[b as usize]),
        Making::Product(a, b) => scheme.product(before[a as usize], before[b as usize]),
    }
}

// The own level of the wire after those whose outgoing levels are given.
fn own_level<C: Circuit, S: Scheme>(circuit: &C, scheme: &S, before: &[u32]) -> u32
    requires more { length before.now < width (C.meaning circuit.now) }
    requires levels { (k : ℕ) → k < length before.now → Level (slice_index before.now k) }
    ensures is { result ≡ own (S.tables scheme.now) before.now (slice_index_or (C.meaning circuit.now).makings (length before.now) Input) }
    ensures least { 1 ≤ result }
{
    circuit
        .making(before.len() as u32)
        .map_or(1, |making| level_of(scheme, making, before))
}

// A loop, since each level is worked out from those that it has written.
fn run<C: Circuit, S: Scheme>(
    circuit: &C,
    plan: &[u32],
    scheme: &S,
    memory: &mut [u32],
) -> Option<Overrun>
    requires room { width (C.meaning circuit.now) ≤ length memory.old }
    requires fits { plan_fits (C.meaning circuit.now).makings 0 plan.now ≡ true }
    ensures answer { result ≡ (run_from (rules (S.tables scheme.now) S.LIMIT S.FRESH) plan.now [] (C.meaning circuit.now).makings).answer }
    ensures memory { memory.new ≡ over (run_from (rules (S.tables scheme.now) S.LIMIT S.FRESH) plan.now [] (C.meaning circuit.now).makings).levels memory.old }
{
    let mut due = plan;
    for rank in 0..circuit.wires() {
        let k = rank as usize;
        let level = own_level(circuit, scheme, &memory[..k]);
        if level > S::LIMIT {
            return Some(Overrun { rank, level });
        }
        if due.first().copied() == Some(rank) {
            memory[k] = S::FRESH;
            due = &due[1..];
        } else {
            memory[k] = level;
        }
    }
    None
}

// The levels of the wires of a circuit under a plan, written by rank into the memory as far as they are defined.
// The clauses spell the rules out: a ghost member for them would be one more, with a law, in each scheme.
pub fn level_run<C: Circuit, S: Scheme>(
    circuit: &C,
    plan: &[u32],
    scheme: &S,
    memory: &mut [u32],
) -> Result<Option<Overrun>, Refusal>
    ensures answer { result ≡ (level_run (C.meaning circuit.now) (rules (S.tables scheme.now) S.LIMIT S.FRESH) plan.now memory.old).result }
    ensures memory { memory.new ≡ (level_run (C.meaning circuit.now) (rules (S.tables scheme.now) S.LIMIT S.FRESH) plan.now memory.old).memory }
    ensures ran { Ran (C.meaning circuit.now) (rules (S.tables scheme.now) S.LIMIT S.FRESH) plan.now memory.old result memory.new }
{
    if memory.len() < circuit.wires() as usize {
        return Err(Refusal::MemoryTooShort);
    }
    if !plan_fits(circuit, plan) {
        return Err(Refusal::BadRank);
    }
    Ok(run(circuit, plan, scheme, memory))
}

// What holds of levels, whatever the circuit and the scheme.
pub fn level_laws()
    ensures { LevelLaws }
{}
