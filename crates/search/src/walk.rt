ghost use Rattle.std.specs.Prelude.{◌≡◌, ◌+◌, ◌-◌, ◌*◌, ◌<◌, ◌≤◌, true, length, take, MatchOption, slice_index};
ghost use Rattle.search.specs.Graphs.{row};
ghost use Rattle.search.specs.Rows.{mark, stacked, Kept};
ghost use Rattle.search.specs.Walks.{Clear, Stack, pushed, Passed, Opens, Turned, Dived, Hunted, Placed};

use crate::Found;
use crate::graph::Graph;
use circuits::answer::Refusal;

// A step of a place: its number there, and the number of the place it leads to.
#[derive(Clone, Copy)]
struct Step {
    number: u32,
    to: u32,
}

// What walks over a graph. In the memory that is lent with each call lie, from `base` on, the marks, then the stack, then the steps tried, `count` numbers each.
// The memory is no field: each of six methods would have to say of the graph, both numbers and the memory that they stay, and would have only the clause `room` less.
#[derive(Drop)]
pub struct Walker<'a, G: Graph> {
    graph: &'a G,
    base: u32,
    count: u32,
    ghost lists: { base ≡ (G.meaning graph.now).extent },
    ghost places: { count ≡ (G.meaning graph.now).many },
}

impl<'a, G: Graph> Walker<'a, G> {
    // Unless the memory is too short for its rows.
    pub fn over(graph: &'a G, memory: &[u32]) -> Result<Walker<'a, G>, Refusal>
        ensures { Placed (G.meaning graph.now) memory.now (λ w. w.graph.now ≡ graph.now) result }
    {
        let base = graph.front();
        let count = graph.count();
        if memory.len() < base as usize + 3 * count as usize {
            return Err(Refusal::MemoryTooShort);
        }
        Ok(Walker { graph, base, count })
    }

    // Where the mark of a place is.
    fn mark(&self, place: u32) -> usize
        ensures { result ≡ self.now.base + place }
    {
        self.base as usize + place as usize
    }

    // Where the stack has its place at a height.
    fn stacked(&self, height: u32) -> usize
        ensures { result ≡ self.now.base + self.now.count + height }
    {
        self.base as usize + self.count as usize + height as usize
    }

    // Where the steps of a place that were tried are counted.
    fn tried(&self, place: u32) -> usize
        ensures { result ≡ self.now.base + self.now.count + self.now.count + place }
    {
        self.base as usize + self.count as usize + self.count as usize + place as usize
    }

    // Sets the marks to 0.
    pub fn clear(&self, memory: &mut [u32])
        requires { self.now.base + 3 * self.now.count ≤ length memory.old }
        ensures kept { Kept self.now.base (self.now.base + 3 * self.now.count) memory.old memory.new }
        ensures clear { Clear self.now.base self.now.count memory.new }
    {
        memory[self.mark(0)..self.mark(self.count)].fill(0);
    }

    // Marks the place and puts it on the stack, none of its steps tried.
    fn push(&self, memory: &mut [u32], height: u32, place: u32)
        requires stack { Stack self.now.base self.now.count memory.old height }
        requires inside { place < self.now.count }
        requires free { mark self.now.base memory.old place ≡ 0 }
        ensures { memory.new ≡ pushed self.now.base self.now.count memory.old height place }
    {
        memory[self.mark(place)] = 1;
        memory[self.stacked(height)] = place;
        memory[self.tried(place)] = 0;
    }

    // The place on top of the stack.
    #[tactic(auto, using(crate::proofs::Totals::tally_fits))]
    fn top(&self, memory: &[u32], height: u32) -> u32
        requires stack { Stack self.now.base self.now.count memory.now height }
        requires some { 0 < height }
        ensures { result ≡ stacked self.now.base self.now.count memory.now (height - 1) }
    {
        memory[self.stacked(height - 1)]
    }

    // The step of the place at i, if it leads to an unmarked place.
    fn opening(&self, memory: &[u32], place: G::Place, i: u32) -> Option<Step>
        requires room { self.now.base + 3 * self.now.count ≤ length memory.now }
        requires inside { G.index self.now.graph.now place < self.now.count }
        requires within { i < length (row ((G.meaning self.now.graph.now).steps (take self.now.base memory.now)) (G.index self.now.graph.now place)) }
        ensures { MatchOption result (0 < mark self.now.base memory.now (slice_index (row ((G.meaning self.now.graph.now).steps (take self.now.base memory.now)) (G.index self.now.graph.now place)) i)) (λ s. (s.number ≡ i) × (slice_index (row ((G.meaning self.now.graph.now).steps (take self.now.base memory.now)) (G.index self.now.graph.now place)) i ≡ s.to) × (mark self.now.base memory.now s.to ≡ 0)) }
    {
        let to = self.graph.number(self.graph.step(memory, place, i));
        (memory[self.mark(to)] == 0).then_some(Step { number: i, to })
    }

    // The first step of the place, from number `from` on, that leads to an unmarked place.
    fn open_step(&self, memory: &[u32], place: G::Place, from: u32) -> Option<Step>
        requires room { self.now.base + 3 * self.now.count ≤ length memory.now }
        requires inside { G.index self.now.graph.now place < self.now.count }
        ensures { MatchOption result (Passed ((G.meaning self.now.graph.now).steps (take self.now.base memory.now)) self.now.base memory.now (G.index self.now.graph.now place) from (length (row ((G.meaning self.now.graph.now).steps (take self.now.base memory.now)) (G.index self.now.graph.now place)))) (λ s. Opens ((G.meaning self.now.graph.now).steps (take self.now.base memory.now)) self.now.base memory.now (G.index self.now.graph.now place) from s.number s.to) }
    {
        let degree = self.graph.degree(memory, place);
        (from..degree).find_map(|i| self.opening(memory, place, i))
    }

    // Makes the next step from the place on top of the stack to an unmarked place, or takes the place off, and answers the stack's new height.
    #[tactic(auto, using(crate::proofs::Totals::tally_room))]
    fn advance(&self, memory: &mut [u32], height: u32) -> u32
        requires stack { Stack self.now.base self.now.count memory.old height }
        requires some { 0 < height }
        ensures { Turned ((G.meaning self.now.graph.now).steps (take self.now.base memory.old)) self.now.base self.now.count memory.old height (stacked self.now.base self.now.count memory.old (height - 1)) memory.new result }
    {
        let top = self.top(memory, height);
        let from = memory[self.tried(top)];
        match self.open_step(memory, self.graph.place(top), from) {
            Some(step) => {
                self.push(memory, height, step.to);
                memory[self.tried(top)] = step.number + 1;
                height + 1
            }
            None => height - 1,
        }
    }

    // Whether the place on top of the stack is a goal.
    fn at_goal(&self, memory: &[u32], height: u32) -> bool
        requires stack { Stack self.now.base self.now.count memory.now height }
        requires some { 0 < height }
        ensures { result ≡ (G.meaning self.now.graph.now).goal (take self.now.base memory.now) (stacked self.now.base self.now.count memory.now (height - 1)) }
    {
        let top = self.graph.place(self.top(memory, height));
        self.graph.is_goal(memory, top)
    }

    // Walks on from the place until the top of the stack is a goal, or the stack is empty again.
    fn dive(&self, memory: &mut [u32], place: u32) -> Option<u32>
        requires room { self.now.base + 3 * self.now.count ≤ length memory.old }
        requires inside { place < self.now.count }
        requires free { mark self.now.base memory.old place ≡ 0 }
        requires root { (G.meaning self.now.graph.now).chosen (take self.now.base memory.old) place ≡ true }
        ensures dived { Dived (G.meaning self.now.graph.now) self.now.base self.now.count memory.old place memory.new result }
        ensures marked { 0 < mark self.now.base memory.new place }
    {
        self.push(memory, 0, place);
        let mut height = 1;
        // No `for`, since nothing is walked in order: the height rises and falls.
        while height > 0 {
            if self.at_goal(memory, height) {
                return Some(height);
            }
            height = self.advance(memory, height);
        }
        None
    }

    // Walks on from the place if it is chosen and not marked, until a goal.
    fn visit(&self, memory: &mut [u32], number: u32) -> Option<u32>
        requires room { self.now.base + 3 * self.now.count ≤ length memory.old }
        requires inside { number < self.now.count }
        ensures dived { Dived (G.meaning self.now.graph.now) self.now.base self.now.count memory.old number memory.new result }
        ensures marked { (G.meaning self.now.graph.now).chosen (take self.now.base memory.old) number ≡ true → 0 < mark self.now.base memory.new number }
    {
        if memory[self.mark(number)] == 0
            && self.graph.is_chosen(memory, self.graph.place(number))
        {
            self.dive(memory, number)
        } else {
            None
        }
    }

    // Walks over unmarked places from the chosen places whose numbers are `from` or more, until a goal.
    // The walker is taken by value: behind a reference both numbers would be read again after each write of the memory.
    pub fn hunt(self, memory: &mut [u32], from: u32) -> Option<Found>
        requires room { self.base + 3 * self.count ≤ length memory.old }
        ensures { Hunted (G.meaning self.entry.graph.now) self.entry.base self.entry.count memory.old memory.new from result }
    {
        // No `find_map`, which is no plainer: its closure would change the memory, and wants two proofs by hand where this loop wants none.
        for number in from..self.count {
            if let Some(length) = self.visit(memory, number) {
                return Some(Found {
                    length,
                    next: number + 1,
                });
            }
        }
        None
    }
}
