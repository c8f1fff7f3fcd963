// Plannings: the calls over lent memory, and runs of them.
#![tactic(auto)]

ghost use Rattle.std.specs.Prelude.{◌≡◌, ◌*◌, ◌<◌, false, length, drop};
ghost use Rattle.circuits.specs.Answers.{first_fault};
ghost use Rattle.circuits.specs.Circuits.{width};
ghost use Rattle.routes.specs.Routes.{Ordered};
ghost use Rattle.runs.specs.Law.{LawfulRun};
ghost use Rattle.runs.specs.Told.{opened};
ghost use Rattle.runs.specs.Calls.{rooms, ran, refused_by, IfObeyed, IfRefused};
ghost use Rattle.plannings.specs.Running.{planning_faults, PlansFree, PlansCircuit};

use crate::planning::Planning;
use circuits::answer::Refusal;
use circuits::circuit::Circuit;
use rows::rows::ROWS;
use runs::calls::{Answer, Call};
use runs::planner::Planner;
use runs::run::{enough, run};
use runs::steps::step_on;

mod bars;
mod kept;
mod lent;
mod paths;
mod plan;
pub mod planning;
mod route;
mod step;

// Makes a planning of the circuit over the memory, and runs the calls on it, each call of plan and route lent the next part of the room. It
// hands back each answer. The memory, the room and the answers are lent, since planning takes nothing from the heap.
pub fn run_calls<C: Circuit>(
    circuit: &C,
    memory: &mut [u32],
    calls: &[Call],
    room: &mut [u32],
    answers: &mut [Result<Answer, Refusal>],
) -> Result<(), Refusal>
    ensures refused { refused_by result ≡ first_fault (planning_faults (width (C.meaning circuit.now)) memory.old calls.now room.old answers.old) }
    ensures unaltered { IfRefused result ((memory.new ≡ memory.old) × (room.new ≡ room.old) × (answers.new ≡ answers.old)) }
    ensures past { drop (24 * width (C.meaning circuit.now)) memory.new ≡ drop (24 * width (C.meaning circuit.now)) memory.old }
    ensures rest { drop (rooms calls.now) room.new ≡ drop (rooms calls.now) room.old }
    ensures lawful { IfObeyed result (LawfulRun (C.meaning circuit.now).makings (ran calls.now answers.new room.old room.new)) }
{
    let wires = circuit.wires() as usize;
    // The tests of `run` come before a planning is made as well, since making one writes the memory.
    if memory.len() < ROWS * wires {
        return Err(Refusal::MemoryTooShort);
    }
    if answers.len() != calls.len() || !enough(calls, room.len()) {
        return Err(Refusal::MemoryTooShort);
    }
    let mut planning = Planning::new(circuit, &mut memory[0..ROWS * wires]);
    run(&mut planning, calls, room, answers)
}

// Steps a new planning of so many wires to its end, and writes the earliest smallest plan at the front of the room.
pub fn finish<P: Planner>(planning: &mut P, wires: u32, room: &mut [u32]) -> Result<usize, Refusal>
    ensures { Ordered (P.circuit planning.old) → length (P.circuit planning.old) ≡ wires → P.shows planning.old (opened (λ w. false)) → PlansFree (P.circuit planning.old) false room.old result room.new }
{
    // No smallest plan has more wires than the circuit, so the last of these steps closes.
    step_on(planning, wires as usize + 1);
    planning.plan(room)
}

// Plans a circuit without bars: steps a new planning to its end, and writes the earliest smallest plan at the front of the room. Memory and room are lent as above.
pub fn plan_circuit<C: Circuit>(
    circuit: &C,
    memory: &mut [u32],
    room: &mut [u32],
) -> Result<usize, Refusal>
    ensures planned { PlansCircuit (C.meaning circuit.now) (length memory.old) room.old result room.new }
    ensures past { drop (24 * width (C.meaning circuit.now)) memory.new ≡ drop (24 * width (C.meaning circuit.now)) memory.old }
    ensures unaltered { length memory.old < 24 * width (C.meaning circuit.now) → memory.new ≡ memory.old }
{
    let wires = circuit.wires() as usize;
    if ROWS * wires > memory.len() {
        return Err(Refusal::MemoryTooShort);
    }
    let mut planning = Planning::new(circuit, &mut memory[0..ROWS * wires]);
    finish(&mut planning, circuit.wires(), room)
}
