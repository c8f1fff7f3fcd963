ghost use Rattle.std.specs.Prelude.{List, [], length};
ghost use Rattle.circuits.specs.declared.making.Making.{Making};
ghost use Rattle.runs.specs.Told.{Told};
ghost use Rattle.runs.specs.Calls.{Called, Asked, answered_by};

use crate::calls::{Answer, Call, Stepped};
use circuits::answer::Refusal;

// The five calls on a planning. `shows` says that it has these bars, this state and these routes.
pub trait Planner: Sized {
    ghost circuit: { Self → List Making };

    ghost shows: { Self → Told → Type 0 };

    fn bar(&mut self, rank: u32) -> Result<(), Refusal>
        ensures { Called circuit shows self.old (Call.Bar rank) [] (answered_by (λ u. Answer.Done) result) [] self.new };

    fn unbar(&mut self, rank: u32) -> Result<(), Refusal>
        ensures { Called circuit shows self.old (Call.Unbar rank) [] (answered_by (λ u. Answer.Done) result) [] self.new };

    fn step(&mut self) -> Result<Stepped, Refusal>
        ensures { Called circuit shows self.old Call.Step [] (answered_by Answer.Stepped result) [] self.new };

    fn plan(&self, out: &mut [u32]) -> Result<usize, Refusal>
        ensures { Asked circuit shows self.now (Call.Plan (length out.old)) out.old (answered_by Answer.Planned result) out.new };

    fn route(&self, index: u32, out: &mut [u32]) -> Result<usize, Refusal>
        ensures { Asked circuit shows self.now (Call.Route index (length out.old)) out.old (answered_by Answer.Routed result) out.new };
}
