ghost use Rattle.search.specs.Graphs.{goalless};

use crate::graph::Graph;

// A graph with no place looked for, so that a search over it only marks.
#[derive(Drop)]
pub struct Goalless<'a, G> {
    pub graph: &'a G,
}

impl<'a, G: Graph> Graph for Goalless<'a, G> {
    type Place = G::Place;

    ghost meaning = { λ g. goalless (G.meaning g.graph.now) };

    ghost index = { λ g p. G.index g.graph.now p };

    ghost inside = { λ g f. G.inside g.graph.now f };

    fn count(&self) -> u32 {
        self.graph.count()
    }

    fn front(&self) -> u32 {
        self.graph.front()
    }

    fn place(&self, number: u32) -> G::Place {
        self.graph.place(number)
    }

    fn number(&self, place: G::Place) -> u32 {
        self.graph.number(place)
    }

    fn degree(&self, memory: &[u32], place: G::Place) -> u32 {
        self.graph.degree(memory, place)
    }

    fn step(&self, memory: &[u32], place: G::Place, i: u32) -> G::Place {
        self.graph.step(memory, place, i)
    }

    fn is_goal(&self, _memory: &[u32], _place: G::Place) -> bool {
        false
    }

    fn is_chosen(&self, memory: &[u32], place: G::Place) -> bool {
        self.graph.is_chosen(memory, place)
    }
}
