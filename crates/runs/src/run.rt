ghost use Rattle.std.specs.Prelude.{◌≡◌, ◌≤◌, false, ◌++◌, length, drop, nat_le};
ghost use Rattle.circuits.specs.Answers.{first_fault};
ghost use Rattle.routes.specs.Routes.{Ordered};
ghost use Rattle.runs.specs.Events.{History, room_of};
ghost use Rattle.runs.specs.Law.{LawfulRun};
ghost use Rattle.runs.specs.Told.{opened};
ghost use Rattle.runs.specs.Calls.{Called, Came, rooms, ran, run_faults, refused_by, IfObeyed, IfRefused};

use crate::calls::{Answer, Call};
use crate::planner::Planner;
use circuits::answer::Refusal;

// One call, with the room lent to it.
fn one<P: Planner>(planning: &mut P, call: Call, out: &mut [u32]) -> Result<Answer, Refusal>
    requires { length out.old ≡ room_of call }
    ensures { Called P.circuit P.shows planning.old call out.old result out.new planning.new }
{
    match call {
        Call::Bar(rank) => planning.bar(rank).map(|()| Answer::Done),
        Call::Unbar(rank) => planning.unbar(rank).map(|()| Answer::Done),
        Call::Step => planning.step().map(Answer::Stepped),
        Call::Plan(_) => planning.plan(out).map(Answer::Planned),
        Call::Route(index, _) => planning.route(index, out).map(Answer::Routed),
    }
}

// Whether so many numbers are enough for all calls.
pub fn enough(calls: &[Call], numbers: usize) -> bool
    ensures { result ≡ nat_le (rooms calls.now) numbers }
{
    calls
        .iter()
        .try_fold(numbers, |left, call| left.checked_sub(call.room()))
        .is_some()
}

// The calls, one after another, each lent the next part of the room.
fn run_all<P: Planner>(
    planning: &mut P,
    calls: &[Call],
    room: &mut [u32],
    answers: &mut [Result<Answer, Refusal>],
)
    requires as_many { length answers.old ≡ length calls.now }
    requires enough { rooms calls.now ≤ length room.old }
    ensures same { P.circuit planning.new ≡ P.circuit planning.old }
    ensures rest { drop (rooms calls.now) room.new ≡ drop (rooms calls.now) room.old }
    ensures continued { (h : History) → Came (P.circuit planning.old) (P.shows planning.old) h → Came (P.circuit planning.old) (P.shows planning.new) (ran calls.now answers.new room.old room.new ++ h) }
{
    // The room and the answers go by place: after `zip` with `iter_mut`, or `split_at_mut` in a loop, the check knows nothing of what was lent.
    let mut at = 0;
    for (j, call) in calls.iter().enumerate() {
        let n = call.room();
        let answer = one(planning, *call, &mut room[at..at + n]);
        answers[j] = answer;
        at += n;
    }
}

// Runs a list of calls on a planning, each call of plan and route lent the next part of the room, and hands back each answer. It refuses
// answers that are not as many as the calls, and a room shorter than the calls are lent in all. Calls are only read, so the answers lie in a
// slice of their own.
pub fn run<P: Planner>(
    planning: &mut P,
    calls: &[Call],
    room: &mut [u32],
    answers: &mut [Result<Answer, Refusal>],
) -> Result<(), Refusal>
    ensures refused { refused_by result ≡ first_fault (run_faults calls.now room.old answers.old) }
    ensures unaltered { IfRefused result ((planning.new ≡ planning.old) × (room.new ≡ room.old) × (answers.new ≡ answers.old)) }
    ensures same { P.circuit planning.new ≡ P.circuit planning.old }
    ensures rest { drop (rooms calls.now) room.new ≡ drop (rooms calls.now) room.old }
    ensures lawful { IfObeyed result (Ordered (P.circuit planning.old) → P.shows planning.old (opened (λ w. false)) → LawfulRun (P.circuit planning.old) (ran calls.now answers.new room.old room.new)) }
    ensures continued { IfObeyed result ((h : History) → Came (P.circuit planning.old) (P.shows planning.old) h → Came (P.circuit planning.old) (P.shows planning.new) (ran calls.now answers.new room.old room.new ++ h)) }
{
    if answers.len() != calls.len() || !enough(calls, room.len()) {
        return Err(Refusal::MemoryTooShort);
    }
    run_all(planning, calls, room, answers);
    Ok(())
}
