// A graph that lies in the lent memory as compressed lists.
#![tactic(auto)]

ghost use Rattle.std.specs.Prelude.{◌≡◌, ◌^◌, ◌<◌};
ghost use Rattle.listed.specs.Lists.{size, listed, UnlessLarge, MarksListed};
ghost use Rattle.listed.specs.Listing.{listed_inside};

use circuits::answer::Refusal;
use search::graph::Graph;
use search::mark_reached;

// What a place is for the search, by its number in the memory; any other number is that of a plain place.
#[derive(Clone, Copy, PartialEq, Eq, Debug)]
pub enum Flag {
    Plain = 0,
    // The search starts from it.
    Chosen = 1,
    // The search looks for it.
    Goal = 2,
}

// A place, by its number: a type of its own, so that no number is taken for one.
#[derive(Clone, Copy, PartialEq, Eq, Debug)]
pub struct Node(pub u32);

// In the memory are a flag for each place; for each place the offset of its first target, and the end of the last one's; and the targets.
// Offsets past the targets count as their end, and a target that is no place leads back.
#[derive(Clone, Copy)]
pub struct Listed {
    places: u32,
    targets: u32,
    ghost few: { size places targets < 2 ^ 32 },
}

impl Listed {
    pub fn new(places: u32, targets: u32) -> Result<Listed, Refusal>
        ensures { UnlessLarge (size places targets) (λ l. (l.places ≡ places) × (l.targets ≡ targets)) result }
    {
        if 2 * places as u64 + 1 + targets as u64 > u32::MAX as u64 {
            return Err(Refusal::CountOutOfBounds);
        }
        Ok(Listed { places, targets })
    }
}

impl Graph for Listed {
    type Place = Node;

    ghost meaning = { λ l. listed l.places l.targets };

    ghost index = { λ l p. p.0 };

    ghost inside = { λ l f. listed_inside l.places l.targets f };

    fn count(&self) -> u32 {
        self.places
    }

    fn front(&self) -> u32 {
        2 * self.places + 1 + self.targets
    }

    fn place(&self, number: u32) -> Node {
        Node(number)
    }

    fn number(&self, place: Node) -> u32 {
        place.0
    }

    #[tactic(auto, using(crate::specs::Listing::degree_is, crate::specs::Listing::start_in, crate::specs::Listing::stop_in))]
    fn degree(&self, memory: &[u32], place: Node) -> u32 {
        let at = (self.places + place.0) as usize;
        memory[at + 1].min(self.targets).saturating_sub(memory[at])
    }

    #[tactic(auto, using(crate::specs::Listing::target_in, crate::specs::Listing::step_in))]
    fn step(&self, memory: &[u32], place: Node, i: u32) -> Node {
        let start = memory[(self.places + place.0) as usize];
        let target = memory[(2 * self.places + 1 + (start + i)) as usize];
        if target < self.places {
            Node(target)
        } else {
            place
        }
    }

    fn is_goal(&self, memory: &[u32], place: Node) -> bool {
        memory[place.0 as usize] == Flag::Goal as u32
    }

    fn is_chosen(&self, memory: &[u32], place: Node) -> bool {
        memory[place.0 as usize] == Flag::Chosen as u32
    }
}

// Marks what steps reach in the graph that lies in the memory.
pub fn mark_listed(memory: &mut [u32], places: u32, targets: u32) -> Result<(), Refusal>
    ensures { MarksListed places targets memory.old memory.new result }
{
    let graph = Listed::new(places, targets)?;
    mark_reached(&graph, memory)
}
