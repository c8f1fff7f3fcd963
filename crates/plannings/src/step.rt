ghost use Rattle.std.specs.Prelude.{◌≡◌, Ok};
ghost use Rattle.routes.specs.Plans.{Blocked as IsBlocked};
ghost use Rattle.rows.specs.Held.{circuit_in, bars_in};
ghost use Rattle.runs.specs.Calls.{answered_by};
ghost use Rattle.runs.specs.declared.calls.Call.TheVariants.{Step};
ghost use Rattle.plannings.specs.Ready.{bare};
ghost use Rattle.plannings.specs.Lending.{IsReady, Turns};
ghost use Rattle.plannings.specs.declared.kept.Phase.TheVariants.{Open};

use crate::kept::Phase;
use crate::lent::Lent;
use crate::paths::{barred_path, unit_path};
use circuits::answer::Refusal;
use flows::grow::grow;
use flows::number::prepare;
use runs::calls::{Answer, Stepped};

impl<'a> Lent<'a> {
    // One route more, or closed where none more can stand.
    fn advance(&mut self, from: u32) -> Stepped
        requires ready { IsReady self.old }
        requires opened { self.old.kept.phase ≡ Open from }
        requires unblocked { IsBlocked (circuit_in self.old.rows) (bars_in self.old.rows) → ⊥ }
        ensures { Turns self.old (bare Step (Ok (Answer.Stepped result))) self.new }
    {
        match unit_path(&mut self.rows, self.kept.routes, from) {
            Some(found) => {
                grow(&mut self.rows, found.length as usize);
                self.kept.routes += 1;
                self.kept.phase = Phase::Open(found.next);
                Stepped::Grown
            }
            None => {
                prepare(&mut self.rows);
                self.kept.phase = Phase::Closed;
                Stepped::Closed
            }
        }
    }

    // Blocks if some route has only barred wires; else one route more, or closed where none more can stand.
    pub fn step(&mut self) -> Result<Stepped, Refusal>
        requires { IsReady self.old }
        ensures { Turns self.old (bare Step (answered_by Answer.Stepped result)) self.new }
    {
        let Phase::Open(from) = self.kept.phase else {
            return Err(Refusal::NotOpen);
        };
        if self.kept.routes > 0 {
            return Ok(self.advance(from));
        }
        match barred_path(&mut self.rows) {
            Some(found) => {
                self.kept.phase = Phase::Blocked(found.length as usize);
                Ok(Stepped::Blocked)
            }
            None => Ok(self.advance(from)),
        }
    }
}
