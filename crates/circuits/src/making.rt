ghost use Rattle.std.specs.Prelude.{◌≡◌};
ghost use Rattle.circuits.specs.Circuits.{is_input};
ghost use Rattle.circuits.specs.Levels.{produced};
ghost use Rattle.circuits.specs.Tables.{feeds};

// How the wire at a rank is made. An operand is a rank.
#[derive(Clone, Copy, PartialEq, Eq, Debug)]
pub enum Making {
    Input,
    Constant(bool),
    Copy(u32),
    Inversion(u32),
    Sum(u32, u32),
    Product(u32, u32),
}

impl Making {
    pub fn is_input(self) -> bool
        ensures { result ≡ is_input self }
    {
        matches!(self, Making::Input)
    }

    // Whether it is neither an input nor a constant.
    pub fn is_produced(self) -> bool
        ensures { result ≡ produced self }
    {
        !matches!(self, Making::Input | Making::Constant(_))
    }

    // Whether each operand has a lower rank: one match, since each kind has its own operands.
    pub fn is_fed(self, rank: u32) -> bool
        ensures { result ≡ feeds rank self }
    {
        match self {
            Making::Input | Making::Constant(_) => true,
            Making::Copy(a) | Making::Inversion(a) => a < rank,
            Making::Sum(a, b) | Making::Product(a, b) => a < rank && b < rank,
        }
    }
}

// A wire of a table: how it is made, and its name.
#[derive(Clone, Copy, PartialEq, Eq, Debug)]
pub struct Entry {
    pub making: Making,
    pub name: u32,
}
