ghost use Rattle.std.specs.Prelude.{◌≡◌, ℕ, ◌<◌, ◌≤◌, List, length, take, slice_index};
ghost use Rattle.search.specs.Graphs.{Meaning, Inside, row};

// A finite graph whose lists lie in the front part of a memory that is lent with each question. Any numbers there mean a graph. Asking changes nothing.
// That the memory is long enough and that a place is one of the graph are clauses: a type that kept the first would hold the graph beside the memory and be made anew after
// each write of the search, and a place that kept the second would hold its graph.
pub trait Graph {
    type Place: Copy;

    ghost meaning: { Self → Meaning };

    // The number of a place.
    ghost index: { Self → Self.Place → ℕ };

    // How many places there are.
    fn count(&self) -> u32
        ensures { result ≡ (meaning self.now).many };

    // How many numbers of the memory the lists take.
    fn front(&self) -> u32
        ensures { result ≡ (meaning self.now).extent };

    fn place(&self, number: u32) -> Self::Place
        requires { number < (meaning self.now).many }
        ensures { index self.now result ≡ number };

    fn number(&self, place: Self::Place) -> u32
        requires { index self.now place < (meaning self.now).many }
        ensures { result ≡ index self.now place };

    // How many steps lead out of the place.
    fn degree(&self, memory: &[u32], place: Self::Place) -> u32
        requires room { (meaning self.now).extent ≤ length memory.now }
        requires inside { index self.now place < (meaning self.now).many }
        ensures { result ≡ length (row ((meaning self.now).steps (take (meaning self.now).extent memory.now)) (index self.now place)) };

    // Where the step at i leads.
    fn step(&self, memory: &[u32], place: Self::Place, i: u32) -> Self::Place
        requires room { (meaning self.now).extent ≤ length memory.now }
        requires inside { index self.now place < (meaning self.now).many }
        requires within { i < length (row ((meaning self.now).steps (take (meaning self.now).extent memory.now)) (index self.now place)) }
        ensures { index self.now result ≡ slice_index (row ((meaning self.now).steps (take (meaning self.now).extent memory.now)) (index self.now place)) i };

    fn is_goal(&self, memory: &[u32], place: Self::Place) -> bool
        requires room { (meaning self.now).extent ≤ length memory.now }
        requires inside { index self.now place < (meaning self.now).many }
        ensures { result ≡ (meaning self.now).goal (take (meaning self.now).extent memory.now) (index self.now place) };

    fn is_chosen(&self, memory: &[u32], place: Self::Place) -> bool
        requires room { (meaning self.now).extent ≤ length memory.now }
        requires inside { index self.now place < (meaning self.now).many }
        ensures { result ≡ (meaning self.now).chosen (take (meaning self.now).extent memory.now) (index self.now place) };

    ghost inside: { (g : Self) (front : List ℕ) → Inside (meaning g).many ((meaning g).steps front) };
}
