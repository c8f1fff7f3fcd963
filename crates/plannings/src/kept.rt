ghost use Rattle.std.specs.Prelude.{◌≡◌};
ghost use Rattle.plannings.specs.Ready.{opened_kept, state_of};

use runs::calls::State;

// How far a planning has come: it is open, and goes on from a place number; closed; or blocked by a route of barred wires of this length.
#[derive(Clone, Copy, PartialEq, Eq, Debug)]
pub enum Phase {
    Open(u32),
    Closed,
    Blocked(usize),
}

// What a planning keeps besides its memory: how far it has come, and how many routes and bars it has.
#[derive(Clone, Copy, PartialEq, Eq, Debug)]
pub struct Kept {
    pub phase: Phase,
    pub routes: usize,
    pub bars: usize,
}

impl Phase {
    // What is told of it: less than it holds, so it is asked for and no conversion.
    pub fn state(self) -> State
        ensures { result ≡ state_of self }
    {
        match self {
            Phase::Open(_) => State::Open,
            Phase::Closed => State::Closed,
            Phase::Blocked(_) => State::Blocked,
        }
    }
}

impl Kept {
    // Open, with so many bars and no routes.
    pub fn opened(bars: usize) -> Kept
        ensures { result ≡ opened_kept bars }
    {
        Kept {
            phase: Phase::Open(0),
            routes: 0,
            bars,
        }
    }
}
