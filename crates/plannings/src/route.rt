ghost use Rattle.std.specs.Prelude.{◌≡◌, ◌*◌, ◌≤◌, length, take, drop};
ghost use Rattle.runs.specs.Calls.{answered_by};
ghost use Rattle.runs.specs.declared.calls.Call.TheVariants.{Route};
ghost use Rattle.plannings.specs.Ready.{lent};
ghost use Rattle.plannings.specs.Lending.{IsReady, Leaves};
ghost use Rattle.plannings.specs.declared.kept.Phase.TheVariants.{Closed, Blocked};

use crate::kept::Phase;
use crate::lent::Lent;
use circuits::answer::Refusal;
use flows::trace::trace_noted;
use rows::rows::Row;
use runs::calls::Answer;

// The row that the barred route lies in: the stack of a search over as many places as there are wires.
const BARRED_ROUTE: Row = Row::MarksSecond;

impl<'a> Lent<'a> {
    // Copies the barred route.
    fn copy_barred(&self, height: usize, out: &mut [u32])
        requires short { height ≤ self.now.rows.wires }
        requires long { self.now.rows.wires ≤ length out.old }
        ensures row { take height out.new ≡ take height (drop (14 * self.now.rows.wires) self.now.rows.memory.now) }
        ensures rest { drop height out.new ≡ drop height out.old }
    {
        let from = BARRED_ROUTE.number() * self.rows.wires;
        out[0..height].copy_from_slice(&self.rows.memory[from..from + height]);
    }

    // Of a planning that is closed, writes a route. It refuses as `copied` does, which has one route and not as many as are kept: the two tests of
    // both in `route` would need a match of their own.
    fn traced(&self, index: u32, out: &mut [u32]) -> Result<usize, Refusal>
        requires ready { IsReady self.now }
        requires closed { self.now.kept.phase ≡ Closed }
        ensures { Leaves self.now (lent (Route index (length out.old)) out.old (answered_by Answer.Routed result) out.new) }
    {
        if index as usize >= self.kept.routes {
            return Err(Refusal::IndexTooHigh);
        }
        if out.len() < self.rows.wires {
            return Err(Refusal::MemoryTooShort);
        }
        Ok(trace_noted(&self.rows.view(), index, out))
    }

    // Of a planning that is blocked, writes the route of so many barred wires.
    fn copied(&self, height: usize, index: u32, out: &mut [u32]) -> Result<usize, Refusal>
        requires ready { IsReady self.now }
        requires blocked { self.now.kept.phase ≡ Blocked height }
        ensures { Leaves self.now (lent (Route index (length out.old)) out.old (answered_by Answer.Routed result) out.new) }
    {
        if index > 0 {
            return Err(Refusal::IndexTooHigh);
        }
        if out.len() < self.rows.wires {
            return Err(Refusal::MemoryTooShort);
        }
        self.copy_barred(height, out);
        Ok(height)
    }

    // Writes a route, and answers how many wires it has.
    pub fn route(&self, index: u32, out: &mut [u32]) -> Result<usize, Refusal>
        requires { IsReady self.now }
        ensures { Leaves self.now (lent (Route index (length out.old)) out.old (answered_by Answer.Routed result) out.new) }
    {
        match self.kept.phase {
            Phase::Open(_) => Err(Refusal::StillOpen),
            Phase::Closed => self.traced(index, out),
            Phase::Blocked(height) => self.copied(height, index, out),
        }
    }
}
