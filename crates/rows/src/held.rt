ghost use Rattle.std.specs.Prelude.{◌≡◌, ◌<◌};
ghost use Rattle.routes.specs.Routes.{at};
ghost use Rattle.rows.specs.Rows.{SameRows};
ghost use Rattle.rows.specs.Held.{making, making_of, kind_of, circuit_of, circuit_in};
ghost use Rattle.rows.specs.Loading.{Put};

use crate::rows::{Row, Rows, View};
use circuits::making::Making;

// How a wire is made, but for its operands. In the memory it is a number.
#[derive(Clone, Copy, PartialEq, Eq, Debug)]
pub enum Kind {
    Input,
    Copy,
    Inversion,
    Sum,
    Product,
    False,
    True,
}

// The kind that a number of the memory stands for; any number stands for one.
impl From<u32> for Kind {
    ghost from_gives = { λ number kind. kind ≡ kind_of number };

    fn from(number: u32) -> Kind {
        match number {
            0 => Kind::Input,
            1 => Kind::Copy,
            2 => Kind::Inversion,
            3 => Kind::Sum,
            4 => Kind::Product,
            6 => Kind::True,
            _ => Kind::False,
        }
    }
}

// The number of the kind of a making, and its operands. Three numbers for three rows are no type to convert to, so this and the next are functions.
fn encoded(how: Making) -> (u32, u32, u32)
    ensures { making result.0 result.1 result.2 ≡ how }
{
    let (kind, first, second) = match how {
        Making::Input => (Kind::Input, 0, 0),
        Making::Copy(a) => (Kind::Copy, a, 0),
        Making::Inversion(a) => (Kind::Inversion, a, 0),
        Making::Sum(a, b) => (Kind::Sum, a, b),
        Making::Product(a, b) => (Kind::Product, a, b),
        Making::Constant(false) => (Kind::False, 0, 0),
        Making::Constant(true) => (Kind::True, 0, 0),
    };
    (kind as u32, first, second)
}

// How a wire of a kind is made of these operands.
fn decoded(kind: Kind, first: u32, second: u32) -> Making
    ensures { result ≡ making_of kind first second }
{
    match kind {
        Kind::Input => Making::Input,
        Kind::Copy => Making::Copy(first),
        Kind::Inversion => Making::Inversion(first),
        Kind::Sum => Making::Sum(first, second),
        Kind::Product => Making::Product(first, second),
        Kind::False => Making::Constant(false),
        Kind::True => Making::Constant(true),
    }
}

impl<'a> View<'a> {
    // How the wire is made that the memory holds.
    pub fn making(&self, wire: usize) -> Making
        requires { wire < self.now.wires }
        ensures { result ≡ at (circuit_of self.now.memory.now self.now.wires) wire }
    {
        decoded(
            Kind::from(self.get(Row::Kind, wire)),
            self.get(Row::First, wire),
            self.get(Row::Second, wire),
        )
    }
}

impl<'a> Rows<'a> {
    // How the wire is made that the memory holds.
    pub fn making(&self, wire: usize) -> Making
        requires { wire < self.now.wires }
        ensures { result ≡ at (circuit_in self.now) wire }
    {
        self.view().making(wire)
    }

    // Writes how a wire is made.
    pub(crate) fn put_making(&mut self, wire: usize, how: Making)
        requires { wire < self.old.wires }
        ensures same { SameRows self.old self.new }
        ensures put { Put self.old.wires self.old.memory.now self.new.memory.now wire how }
    {
        let (kind, first, second) = encoded(how);
        self.put(Row::Kind, wire, kind);
        self.put(Row::First, wire, first);
        self.put(Row::Second, wire, second);
    }
}
