ghost use Rattle.runs.specs.Steps.{SteppedOn};

use crate::calls::Stepped;
use crate::planner::Planner;
use circuits::answer::Refusal;

// How a row of steps went: so many grew, and then one did not, or all did. The law counts those that grew whichever it was, so that both are told.
#[derive(Clone, Copy, PartialEq, Eq, Debug)]
pub struct Steps {
    pub grown: usize,
    pub last: Option<Result<Stepped, Refusal>>,
}

// Steps until a step does not grow, at most so many times. A loop, since how many turns there were is part of the answer.
pub fn step_on<P: Planner>(planning: &mut P, most: usize) -> Steps
    ensures { SteppedOn P.circuit P.shows planning.old most result planning.new }
{
    for grown in 0..most {
        match planning.step() {
            Ok(Stepped::Grown) => {}
            last => {
                return Steps {
                    grown,
                    last: Some(last),
                };
            }
        }
    }
    Steps {
        grown: most,
        last: None,
    }
}
