ghost use Rattle.std.specs.Prelude.{◌≡◌};
ghost use Rattle.std.specs.List.{slice_get};
ghost use Rattle.circuits.specs.Circuits.{Meaning, Lawful, width, place};

use crate::making::Making;

// A circuit, by what it means: its makings and names by rank, with its counts of inputs and outputs. Asking changes nothing.
pub trait Circuit {
    ghost meaning: { Self → Meaning };

    // The laws that every circuit keeps.
    ghost laws: { (c : Self) → Lawful (meaning c) };

    // How many wires there are.
    fn wires(&self) -> u32
        ensures { result ≡ width (meaning self.now) };

    // How many of them, the first, are inputs.
    fn inputs(&self) -> u32
        ensures { result ≡ (meaning self.now).inputs };

    // How many of them, those with the last names, are outputs.
    fn outputs(&self) -> u32
        ensures { result ≡ (meaning self.now).outputs };

    // How the wire at the rank is made; none past the last wire.
    fn making(&self, rank: u32) -> Option<Making>
        ensures { result ≡ slice_get (meaning self.now).makings rank };

    // The name of the wire at the rank; none past the last wire.
    fn name(&self, rank: u32) -> Option<u32>
        ensures { result ≡ slice_get (meaning self.now).names rank };

    // The rank of the wire with the name; none past the last wire.
    fn rank_of(&self, name: u32) -> Option<u32>
        ensures { result ≡ place name (meaning self.now).names };
}
