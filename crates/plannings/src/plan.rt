ghost use Rattle.std.specs.Prelude.{length};
ghost use Rattle.runs.specs.Calls.{answered_by};
ghost use Rattle.runs.specs.declared.calls.Call.TheVariants.{Plan};
ghost use Rattle.plannings.specs.Ready.{lent};
ghost use Rattle.plannings.specs.Lending.{IsReady, Leaves};

use crate::kept::Phase;
use crate::lent::Lent;
use circuits::answer::Refusal;
use flows::plan::write_plan;
use runs::calls::Answer;

impl<'a> Lent<'a> {
    // Writes the earliest smallest plan, and answers how many wires it has.
    pub fn plan(&self, out: &mut [u32]) -> Result<usize, Refusal>
        requires { IsReady self.now }
        ensures { Leaves self.now (lent (Plan (length out.old)) out.old (answered_by Answer.Planned result) out.new) }
    {
        match self.kept.phase {
            Phase::Open(_) => return Err(Refusal::StillOpen),
            Phase::Blocked(_) => return Err(Refusal::PlanBlocked),
            Phase::Closed => {}
        }
        if out.len() < self.kept.routes {
            return Err(Refusal::MemoryTooShort);
        }
        Ok(write_plan(&self.rows.view(), out))
    }
}
