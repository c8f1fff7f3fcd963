ghost use Rattle.std.specs.Prelude.{◌≡◌};
ghost use Rattle.graphs.specs.Meanings.{barred_graph, UnlessWide};
ghost use Rattle.graphs.specs.BarredSteps.{barred_lies_inside};

use crate::front::Wires;
use circuits::answer::Refusal;
use rows::held::Kind;
use rows::rows::Row;
use search::graph::Graph;

// A place is a wire, by its rank: a type of its own, so that no number is taken for one.
#[derive(Clone, Copy, PartialEq, Eq, Debug)]
pub struct Rank(pub u32);

// From barred wires to the barred wires that they feed. A step that cannot be made leads back to its own wire.
#[derive(Clone, Copy)]
pub struct Barred {
    wires: Wires,
}

// A constructor like that of `Residual`: one over both would have to be given the type around the wires, and the wires are all that they share.
impl Barred {
    pub fn new(wires: u32) -> Result<Barred, Refusal>
        ensures { UnlessWide wires (λ g. g.wires.count ≡ wires) result }
    {
        Ok(Barred {
            wires: Wires::new(wires)?,
        })
    }
}

impl Graph for Barred {
    type Place = Rank;

    ghost meaning = { λ g. barred_graph g.wires.count };

    ghost index = { λ g p. p.0 };

    ghost inside = { λ g f. barred_lies_inside g.wires.count f };

    fn count(&self) -> u32 {
        self.wires.count
    }

    fn front(&self) -> u32 {
        self.wires.extent()
    }

    fn place(&self, number: u32) -> Rank {
        Rank(number)
    }

    fn number(&self, place: Rank) -> u32 {
        place.0
    }

    #[tactic(auto, using(crate::specs::BarredSteps::barred_long))]
    fn degree(&self, memory: &[u32], place: Rank) -> u32 {
        self.wires.front(memory).list_length(place.0)
    }

    #[tactic(auto, using(crate::specs::BarredSteps::barred_long, crate::specs::BarredSteps::barred_leads))]
    fn step(&self, memory: &[u32], place: Rank, i: u32) -> Rank {
        let front = self.wires.front(memory);
        let fed = front.listed(place.0, i);
        if fed < self.wires.count && front.is_barred(fed) {
            Rank(fed)
        } else {
            place
        }
    }

    fn is_goal(&self, memory: &[u32], place: Rank) -> bool {
        let front = self.wires.front(memory);
        front.is_barred(place.0) && 0 < front.get(Row::Goals, place.0)
    }

    fn is_chosen(&self, memory: &[u32], place: Rank) -> bool {
        let front = self.wires.front(memory);
        front.is_barred(place.0) && front.kind(place.0) == Kind::Product
    }
}
