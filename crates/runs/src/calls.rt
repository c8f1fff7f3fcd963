ghost use Rattle.std.specs.Prelude.{◌≡◌};
ghost use Rattle.runs.specs.Events.{room_of};

use std::fmt;

// A call on a planning. Bar and unbar take a rank, route an index; the last number of plan and of route is how many numbers
// the caller lends to it.
#[derive(Clone, Copy, PartialEq, Eq, Debug)]
pub enum Call {
    Bar(u32),
    Unbar(u32),
    Step,
    Plan(usize),
    Route(u32, usize),
}

impl Call {
    // How many numbers are lent to it.
    pub fn room(self) -> usize
        ensures { result ≡ room_of self }
    {
        match self {
            Call::Bar(_) | Call::Unbar(_) | Call::Step => 0,
            Call::Plan(n) => n,
            Call::Route(_, n) => n,
        }
    }
}

impl fmt::Display for Call {
    fn fmt<W: fmt::Write>(&self, f: &mut fmt::Formatter<W>) -> fmt::Result {
        match self {
            Call::Bar(rank) => write!(f, "bar {rank}"),
            Call::Unbar(rank) => write!(f, "unbar {rank}"),
            Call::Step => f.write_str("step"),
            Call::Plan(room) => write!(f, "plan, room for {room}"),
            Call::Route(index, room) => write!(f, "route {index}, room for {room}"),
        }
    }
}

// What a step that is obeyed answers.
#[derive(Clone, Copy, PartialEq, Eq, Debug)]
pub enum Stepped {
    Grown,
    Closed,
    Blocked,
}

impl fmt::Display for Stepped {
    fn fmt<W: fmt::Write>(&self, f: &mut fmt::Formatter<W>) -> fmt::Result {
        f.write_str(match self {
            Stepped::Grown => "grown",
            Stepped::Closed => "closed",
            Stepped::Blocked => "blocked",
        })
    }
}

// What a call answers that is obeyed: a bar or an unbar that it is done, a step how it went, plan and route how many ranks were written.
#[derive(Clone, Copy, PartialEq, Eq, Debug)]
pub enum Answer {
    Done,
    Stepped(Stepped),
    Planned(usize),
    Routed(usize),
}

// What a planning tells of itself.
#[derive(Clone, Copy, PartialEq, Eq, Debug)]
pub enum State {
    Open,
    Closed,
    Blocked,
}
