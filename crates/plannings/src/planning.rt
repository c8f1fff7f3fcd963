ghost use Rattle.std.specs.Prelude.{◌≡◌, ◌*◌, ◌<◌, ◌≤◌, length};
ghost use Rattle.circuits.specs.Circuits.{width};
ghost use Rattle.rows.specs.Held.{circuit_in};
ghost use Rattle.flows.specs.Listing.{count};
ghost use Rattle.runs.specs.Shown.{Shows};
ghost use Rattle.runs.specs.Told.{counted};
ghost use Rattle.plannings.specs.Lending.{standing, IsReady, IsNew, TellsOf};

use crate::kept::Kept;
use crate::lent::Lent;
use circuits::answer::Refusal;
use circuits::circuit::Circuit;
use rows::rows::{ROWS, Rows};
use runs::calls::{State, Stepped};
use runs::planner::Planner;

// A planning of a circuit, over memory that is lent to it.
#[derive(Drop)]
pub struct Planning<'a> {
    inner: Lent<'a>,
    ghost ready: { ∥ IsReady inner ∥₁ },
}

impl<'a> Planning<'a> {
    // Asks the circuit for its makings, and begins open, with no bars and no routes. Of too little memory it makes a planning without wires.
    pub fn new<C: Circuit>(circuit: &C, memory: &'a mut [u32]) -> Planning<'a>
        ensures made { 24 * width (C.meaning circuit.now) ≤ length memory.old → IsNew (C.meaning circuit.now).makings result.inner }
        ensures short { length memory.old < 24 * width (C.meaning circuit.now) → (result.inner.rows.wires ≡ 0) × (result.inner.rows.memory.now ≡ memory.old) }
        ensures lends { result.inner.rows.memory.ghost_name ≡ memory.entry.ghost_name }
    {
        let wires = circuit.wires() as usize;
        let kept = Kept::opened(0);
        if memory.len() < ROWS * wires {
            let rows = Rows { memory, wires: 0 };
            return Planning {
                inner: Lent { rows, kept },
            };
        }
        let mut rows = Rows { memory, wires };
        rows.load(circuit);
        Planning {
            inner: Lent { rows, kept },
        }
    }

    // Open, closed or blocked.
    pub fn state(&self) -> State
        ensures { TellsOf self.now.inner (λ t. result ≡ t.state) }
    {
        self.inner.kept.phase.state()
    }

    // How many routes there are; none when blocked.
    pub fn routes(&self) -> usize
        ensures { TellsOf self.now.inner (λ t. result ≡ counted t.state t.routes) }
    {
        self.inner.kept.routes
    }

    // How many wires are barred.
    pub fn bars(&self) -> usize
        ensures { TellsOf self.now.inner (λ t. result ≡ count t.bars self.now.inner.rows.wires) }
    {
        self.inner.kept.bars
    }

    // Whether the wire at the rank is barred.
    pub fn is_barred(&self, rank: u32) -> bool
        ensures { TellsOf self.now.inner (λ t. result ≡ t.bars rank) }
    {
        self.inner.is_barred(rank)
    }
}

impl<'a> Planner for Planning<'a> {
    ghost circuit = { λ p. circuit_in p.inner.rows };

    ghost shows = { λ p t. Shows (circuit_in p.inner.rows) (standing p.inner) t };

    fn bar(&mut self, rank: u32) -> Result<(), Refusal> {
        self.inner.bar(rank)
    }

    fn unbar(&mut self, rank: u32) -> Result<(), Refusal> {
        self.inner.unbar(rank)
    }

    fn step(&mut self) -> Result<Stepped, Refusal> {
        self.inner.step()
    }

    fn plan(&self, out: &mut [u32]) -> Result<usize, Refusal> {
        self.inner.plan(out)
    }

    fn route(&self, index: u32, out: &mut [u32]) -> Result<usize, Refusal> {
        self.inner.route(index, out)
    }
}
