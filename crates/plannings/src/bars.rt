ghost use Rattle.std.specs.Prelude.{◌≡◌, ◌<◌, if◌then◌else◌};
ghost use Rattle.circuits.specs.Levels.{produced_at};
ghost use Rattle.rows.specs.Rows.{SameRows, written};
ghost use Rattle.rows.specs.Held.{circuit_in, bars_in};
ghost use Rattle.flows.specs.Stacks.{Emptied};
ghost use Rattle.runs.specs.Calls.{answered_by};
ghost use Rattle.runs.specs.declared.calls.Call.TheVariants.{Bar, Unbar};
ghost use Rattle.plannings.specs.Ready.{bare};
ghost use Rattle.plannings.specs.Lending.{IsReady, Turns};

use crate::kept::Kept;
use crate::lent::Lent;
use circuits::answer::Refusal;
use flows::grow::drop_routes;
use rows::rows::Row;
use runs::calls::Answer;

impl<'a> Lent<'a> {
    // Whether the rank is that of a produced wire.
    fn is_produced(&self, rank: u32) -> bool
        ensures { result ≡ produced_at (circuit_in self.now.rows) rank }
    {
        let wire = rank as usize;
        wire < self.rows.wires && self.rows.making(wire).is_produced()
    }

    // Whether the wire is barred.
    pub fn is_barred(&self, rank: u32) -> bool
        ensures { result ≡ bars_in self.now.rows rank }
    {
        let wire = rank as usize;
        wire < self.rows.wires && self.rows.get(Row::Bars, wire) > 0
    }

    // Sets a bar or lifts it, and drops all routes. The flag is what is written, and not a step to run.
    fn rebar(&mut self, wire: usize, barred: bool)
        requires { wire < self.old.rows.wires }
        ensures same { SameRows self.old.rows self.new.rows }
        ensures emptied { Emptied self.old.rows.wires (written self.old.rows.memory.now self.old.rows.wires 3 wire (if barred then 1 else 0)) self.new.rows.memory.now }
        ensures kept { self.new.kept ≡ self.old.kept }
    {
        self.rows.put(Row::Bars, wire, u32::from(barred));
        drop_routes(&mut self.rows);
    }

    // Bars a wire. Not one function with `unbar`: that would ask by a flag for the other test, the other refusal and the other count.
    pub fn bar(&mut self, rank: u32) -> Result<(), Refusal>
        requires { IsReady self.old }
        ensures { Turns self.old (bare (Bar rank) (answered_by (λ u. Answer.Done) result)) self.new }
    {
        if !self.is_produced(rank) {
            return Err(Refusal::BadRank);
        }
        if self.is_barred(rank) {
            return Err(Refusal::AlreadyBarred);
        }
        self.rebar(rank as usize, true);
        self.kept = Kept::opened(self.kept.bars + 1);
        Ok(())
    }

    // Lifts the bar of a wire.
    pub fn unbar(&mut self, rank: u32) -> Result<(), Refusal>
        requires { IsReady self.old }
        ensures { Turns self.old (bare (Unbar rank) (answered_by (λ u. Answer.Done) result)) self.new }
    {
        if !self.is_produced(rank) {
            return Err(Refusal::BadRank);
        }
        if !self.is_barred(rank) {
            return Err(Refusal::NotBarred);
        }
        self.rebar(rank as usize, false);
        self.kept = Kept::opened(self.kept.bars - 1);
        Ok(())
    }
}
