// The tests of the wires that a gate line names.
ghost use Rattle.std.specs.Prelude.{◌≡◌};
ghost use Rattle.reading.specs.Wires.{has_rank, offends, refused, side_refusal, count_of};

use crate::made::Made;
use circuits::answer::Refusal;
use tokens::gate::Gate;
use tokens::line::GateLine;

// The two sides of a gate line: its inputs, then its results.
#[derive(Clone, Copy, PartialEq, Eq, Debug)]
pub enum Side {
    In,
    Out,
}

impl<'a> Made<'a> {
    // The rank of a wire that is made is below the number of wires.
    fn is_made(&self, name: u32) -> bool
        ensures { result ≡ has_rank self.now.ranks.now name }
    {
        let rank = self.ranks.get(name as usize);
        rank.is_some_and(|rank| (*rank as usize) < self.ranks.len())
    }

    fn does_offend(&self, side: Side, name: u32) -> bool
        ensures { result ≡ offends side self.now.ranks.now name }
    {
        match side {
            Side::In => !self.is_made(name),
            Side::Out => name as usize >= self.ranks.len() || self.is_made(name),
        }
    }

    // Whether a number on this side of a gate line is refused.
    pub(crate) fn is_refused(&self, gate: Gate, side: Side, value: u32) -> bool
        ensures { result ≡ refused gate side self.now.ranks.now value }
    {
        match (gate, side) {
            (Gate::Constant, Side::In) => value > 1,
            _ => self.does_offend(side, value),
        }
    }
}

pub(crate) fn refusal_of(side: Side) -> Refusal
    ensures { result ≡ side_refusal side }
{
    match side {
        Side::In => Refusal::BadInput,
        Side::Out => Refusal::BadResult,
    }
}

// How many wires a side of a gate line has.
pub(crate) fn count_of(line: GateLine, side: Side) -> u32
    ensures { result ≡ count_of line side }
{
    match side {
        Side::In => line.inputs,
        Side::Out => line.results,
    }
}
