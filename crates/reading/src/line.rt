// Tests the wires of a gate line and makes its results.
ghost use Rattle.std.specs.Prelude.{◌≡◌, length};
ghost use Rattle.tokens.specs.Lines.{gate_of};
ghost use Rattle.reading.specs.Texts.{line_makes};
ghost use Rattle.reading.specs.Holds.{Whole, bodied};
ghost use Rattle.reading.specs.Memory.{Lasts, wires_of};

use crate::made::Made;
use crate::parts::{reread, takes_two};
use crate::wires::{Side, count_of, refusal_of};
use tokens::cursor::Cursor;
use tokens::fault::Fault;
use tokens::line::GateLine;

impl<'a> Made<'a> {
    // From the line's first input on: the first input that is not made, or else the first result that is, or is past the
    // wires. Each result is made as it passes, so that it is not made twice.
    pub(crate) fn line(&mut self, start: &Cursor, line: GateLine) -> Result<(), Fault>
        requires whole { Whole start.now.text.now line }
        requires here { start.now.at ≡ line.wires }
        ensures result { bodied result (wires_of self.new) ≡ line_makes start.now.text.now (length self.old.table.now) (wires_of self.old) (gate_of start.now.text.now line) }
        ensures lasts { Lasts self.old self.new }
    {
        let gate = line.rule.making;
        let mut wires = *start;
        let mut left = *start;
        let mut right = *start;
        if takes_two(gate) {
            let _ = right.pass_numbers(line.results);
        }
        'line: {
            // One loop for both sides, where a loop for each would write the test and the refusal twice.
            for side in [Side::In, Side::Out] {
                for _ in 0..count_of(line, side) {
                    let wire = reread(&mut wires);
                    if self.is_refused(gate, side, wire.value) {
                        break 'line Err(wires.fault(refusal_of(side), wire.at));
                    }
                    if let Side::Out = side {
                        let making = self.take_making(gate, &mut left, &mut right);
                        self.put(making, wire.value);
                    }
                }
            }
            Ok(())
        }
    }
}
