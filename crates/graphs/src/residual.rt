ghost use Rattle.std.specs.Prelude.{◌≡◌, ◌+◌, ◌*◌, ◌^◌, ◌<◌, ◌&&◌, ◌||◌, length, if◌then◌else◌, ◌==◌, nat_lt, slice_index, true};
ghost use Rattle.std.specs.Option.{option_map_or};
ghost use Rattle.rows.specs.Held.{bars_of};
ghost use Rattle.flows.specs.Residual.{passing_kind, back_to, entry_steps, exit_steps};
ghost use Rattle.graphs.specs.Meanings.{residual_graph, place_number, UnlessWide};
ghost use Rattle.graphs.specs.ResidualSteps.{residual_lies_inside};

use crate::front::{Front, Wires};
use circuits::answer::Refusal;
use rows::held::Kind;
use rows::rows::Row;
use search::graph::Graph;

// The two sides of a wire.
#[derive(Clone, Copy, PartialEq, Eq, Debug)]
pub enum Side {
    Entry,
    Exit,
}

#[derive(Clone, Copy, PartialEq, Eq, Debug)]
pub struct Place {
    pub wire: u32,
    pub side: Side,
}

// A name for each side, since each step makes a place of one of the two.
impl Place {
    fn entry(wire: u32) -> Place
        ensures { place_number result ≡ 2 * wire }
    {
        Place {
            wire,
            side: Side::Entry,
        }
    }

    fn exit(wire: u32) -> Place
        ensures { place_number result ≡ 2 * wire + 1 }
    {
        Place {
            wire,
            side: Side::Exit,
        }
    }

    fn number(self) -> u32
        requires { place_number self < 2 ^ 32 }
        ensures { result ≡ place_number self }
    {
        match self.side {
            Side::Entry => 2 * self.wire,
            Side::Exit => 2 * self.wire + 1,
        }
    }
}

impl From<u32> for Place {
    ghost from_gives = { λ number place. place_number place ≡ number };

    fn from(number: u32) -> Place {
        if number % 2 == 0 {
            Place::entry(number / 2)
        } else {
            Place::exit(number / 2)
        }
    }
}

// The steps of the flow in front.
impl<'a> Front<'a> {
    ghost use Rattle.graphs.specs.InFront.{number_at, list_of};

    // The first operand of a wire, where units come from it. This and the next differ in the kinds that have the operand, so one for both would
    // take them with two rows.
    fn first_source(&self, wire: u32) -> Option<u32>
        requires { wire < self.now.wires.count }
        ensures { result ≡ (if passing_kind (number_at self.now 0 wire) && nat_lt 0 (number_at self.now 9 wire) then Some (number_at self.now 1 wire) else None) }
    {
        let passes = matches!(self.kind(wire), Kind::Copy | Kind::Inversion | Kind::Sum);
        if passes && 0 < self.get(Row::FromFirst, wire) {
            Some(self.get(Row::First, wire))
        } else {
            None
        }
    }

    // The second operand of a wire, where units come from it.
    fn second_source(&self, wire: u32) -> Option<u32>
        requires { wire < self.now.wires.count }
        ensures { result ≡ (if number_at self.now 0 wire == 3 && nat_lt 0 (number_at self.now 10 wire) then Some (number_at self.now 2 wire) else None) }
    {
        if self.kind(wire) == Kind::Sum && 0 < self.get(Row::FromSecond, wire) {
            Some(self.get(Row::Second, wire))
        } else {
            None
        }
    }

    // Through the wire, where one unit more may pass.
    fn pass(&self, wire: u32) -> Place
        requires { wire < self.now.wires.count }
        ensures { place_number result ≡ (if bars_of self.now.rows.now self.now.wires.count wire || nat_lt (number_at self.now 12 wire) 1 then 2 * wire + 1 else 2 * wire) }
    {
        if self.is_barred(wire) || self.get(Row::Through, wire) < 1 {
            Place::exit(wire)
        } else {
            Place::entry(wire)
        }
    }

    // From the entry of a wire back to the operand that units come from, if they do.
    fn back(&self, wire: u32, source: Option<u32>) -> Place
        ensures { place_number result ≡ option_map_or (λ operand. back_to self.now.wires.count (2 * wire) true operand) source (2 * wire) }
    {
        match source {
            Some(operand) if operand < self.wires.count => Place::exit(operand),
            _ => Place::entry(wire),
        }
    }

    // From the exit of a wire on to a wire that it feeds.
    fn onward(&self, wire: u32, fed: u32) -> Place
        ensures { place_number result ≡ (if nat_lt fed self.now.wires.count then 2 * fed else 2 * wire + 1) }
    {
        if fed < self.wires.count {
            Place::entry(fed)
        } else {
            Place::exit(wire)
        }
    }

    // The step at i from the entry of a wire: a graph numbers its steps, and these three are all.
    fn from_entry(&self, wire: u32, i: u32) -> Place
        requires wire { wire < self.now.wires.count }
        requires within { i < 3 }
        ensures { place_number result ≡ slice_index (entry_steps self.now.rows.now self.now.wires.count (2 * wire) wire) i }
    {
        match i {
            0 => self.pass(wire),
            1 => self.back(wire, self.first_source(wire)),
            _ => self.back(wire, self.second_source(wire)),
        }
    }

    // The step at i from the exit of a wire: back through the wire where a unit passes it, and on to the wires that it feeds.
    fn from_exit(&self, wire: u32, i: u32) -> Place
        requires wire { wire < self.now.wires.count }
        requires within { i < 1 + length (list_of self.now wire) }
        ensures { place_number result ≡ slice_index (exit_steps self.now.rows.now self.now.wires.count (list_of self.now) (2 * wire + 1) wire) i }
    {
        match i {
            0 if self.get(Row::Through, wire) > 0 => Place::entry(wire),
            0 => Place::exit(wire),
            _ => self.onward(wire, self.listed(wire, i - 1)),
        }
    }
}

// Where one unit more of the flow in the memory can be sent, or one taken back. A step that cannot be made leads back to its own place.
#[derive(Clone, Copy)]
pub struct Residual {
    wires: Wires,
}

impl Residual {
    pub fn new(wires: u32) -> Result<Residual, Refusal>
        ensures { UnlessWide wires (λ g. g.wires.count ≡ wires) result }
    {
        Ok(Residual {
            wires: Wires::new(wires)?,
        })
    }
}

impl Graph for Residual {
    type Place = Place;

    ghost meaning = { λ g. residual_graph g.wires.count };

    ghost index = { λ g p. place_number p };

    ghost inside = { λ g f. residual_lies_inside g.wires.count f };

    fn count(&self) -> u32 {
        2 * self.wires.count
    }

    fn front(&self) -> u32 {
        self.wires.extent()
    }

    fn place(&self, number: u32) -> Place {
        Place::from(number)
    }

    fn number(&self, place: Place) -> u32 {
        place.number()
    }

    #[tactic(auto, using(crate::proofs::Fronts::list_long, crate::specs::ResidualSteps::entry_place, crate::specs::ResidualSteps::exit_place, crate::specs::ResidualSteps::exit_long))]
    fn degree(&self, memory: &[u32], place: Place) -> u32 {
        match place.side {
            Side::Entry => 3,
            Side::Exit => 1 + self.wires.front(memory).list_length(place.wire),
        }
    }

    #[tactic(auto, using(crate::specs::ResidualSteps::entry_place, crate::specs::ResidualSteps::exit_place, crate::specs::ResidualSteps::exit_long))]
    fn step(&self, memory: &[u32], place: Place, i: u32) -> Place {
        let front = self.wires.front(memory);
        match place.side {
            Side::Entry => front.from_entry(place.wire, i),
            Side::Exit => front.from_exit(place.wire, i),
        }
    }

    fn is_goal(&self, memory: &[u32], place: Place) -> bool {
        place.side == Side::Exit && 0 < self.wires.front(memory).get(Row::Goals, place.wire)
    }

    fn is_chosen(&self, memory: &[u32], place: Place) -> bool {
        place.side == Side::Entry && self.wires.front(memory).kind(place.wire) == Kind::Product
    }
}
