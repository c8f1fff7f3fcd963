ghost use Rattle.std.specs.Prelude.{◌≡◌, ◌≤◌, Ok, Err};
ghost use Rattle.circuits.specs.Matchings.{matching, Unfit};
ghost use Rattle.circuits.specs.MatchingLaws.{matching_lawful};

use crate::answer::Refusal;
use crate::circuit::Circuit;
use crate::making::Making;

// The widths that a matching circuit may have go from 1 to this.
const MOST_WIDTH: u32 = 4096;

// The matching circuit of a width b, worked out and not stored. Its inputs are two lists of b wires; each wire of one is added
// to that of the other, the sums are inverted, and the inversions multiplied into one output.
#[derive(Clone, Copy)]
pub struct Matching {
    width: u32,
    ghost least: { 1 ≤ width },
    ghost most: { width ≤ 4096 },
}

impl Matching {
    // The circuit, or a refusal by 14 where there is none of this width.
    pub fn new(width: u32) -> Result<Matching, Refusal>
        ensures { elim result [ Ok m ↦ (1 ≤ width) × (width ≤ 4096) × (m.width ≡ width) | Err e ↦ Unfit width e ] }
    {
        if (1..=MOST_WIDTH).contains(&width) {
            Ok(Matching { width })
        } else {
            Err(Refusal::BadWidth)
        }
    }
}

impl Circuit for Matching {
    ghost meaning = { λ m. matching m.width };

    ghost laws = { λ m. matching_lawful m.width m.least m.most };

    fn wires(&self) -> u32 {
        5 * self.width - 1
    }

    fn inputs(&self) -> u32 {
        2 * self.width
    }

    fn outputs(&self) -> u32 {
        1
    }

    fn making(&self, rank: u32) -> Option<Making> {
        let b = self.width;
        if rank < 2 * b {
            Some(Making::Input)
        } else if rank < 3 * b {
            Some(Making::Sum(rank - 2 * b, rank - b))
        } else if rank < 4 * b {
            Some(Making::Inversion(rank - b))
        } else if rank >= self.wires() {
            None
        } else if rank == 4 * b {
            Some(Making::Product(3 * b + 1, 3 * b))
        } else {
            Some(Making::Product(rank - b + 1, rank - 1))
        }
    }

    fn name(&self, rank: u32) -> Option<u32> {
        (rank < self.wires()).then_some(rank)
    }

    fn rank_of(&self, name: u32) -> Option<u32> {
        (name < self.wires()).then_some(name)
    }
}
