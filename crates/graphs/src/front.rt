ghost use Rattle.std.specs.Prelude.{◌≡◌, ◌*◌, ◌^◌, ◌<◌, ◌≤◌, length, slice_index};
ghost use Rattle.rows.specs.Rows.{row_number};
ghost use Rattle.rows.specs.Held.{bars_of, kind_of};
ghost use Rattle.graphs.specs.Fronts.{front_of};
ghost use Rattle.graphs.specs.Meanings.{UnlessWide};

use circuits::answer::Refusal;
use rows::held::Kind;
use rows::rows::Row;

// How many rows are in front of the search's.
const FRONT_ROWS: u32 = Row::Marks as u32;

// No planning has more wires.
const MOST_WIRES: u32 = 1 << 20;

// How many wires a planning has.
#[derive(Clone, Copy)]
pub struct Wires {
    pub count: u32,
    ghost few: { count ≤ 2 ^ 20 },
}

impl Wires {
    pub fn new(count: u32) -> Result<Wires, Refusal>
        ensures { UnlessWide count (λ w. w.count ≡ count) result }
    {
        if count > MOST_WIRES {
            return Err(Refusal::BadWidth);
        }
        Ok(Wires { count })
    }

    // How many numbers the rows in front take.
    pub fn extent(self) -> u32
        ensures { result ≡ 13 * self.count }
    {
        FRONT_ROWS * self.count
    }

    // The rows in front of a memory.
    pub fn front<'a>(self, memory: &'a [u32]) -> Front<'a>
        requires { 13 * self.count ≤ length memory.now }
        ensures wires { result.wires ≡ self }
        ensures rows { result.rows.now ≡ front_of self.count memory.now }
    {
        Front {
            rows: &memory[..self.extent() as usize],
            wires: self,
        }
    }
}

// The rows in front of a planning's memory, whatever numbers they hold.
#[derive(Clone, Copy)]
pub struct Front<'a> {
    rows: &'a [u32],
    pub wires: Wires,
    ghost long: { length rows.now ≡ 13 * wires.count },
}

// That a wire is one of a planning is asked of its number at each call: a type for it would hold of one planning only, and say so by the same clause.
impl<'a> Front<'a> {
    ghost use Rattle.graphs.specs.InFront.{number_at, list_of};

    // The number of a wire in a row. The search's rows are not in front, so this is no view of all rows, which would be longer than what is lent.
    #[tactic(auto, using(rows::proofs::Cells::cell_at))]
    pub fn get(&self, row: Row, wire: u32) -> u32
        requires row { row_number row < 13 }
        requires wire { wire < self.now.wires.count }
        ensures { result ≡ number_at self.now (row_number row) wire }
    {
        self.rows[row.number() * self.wires.count as usize + wire as usize]
    }

    pub fn kind(&self, wire: u32) -> Kind
        requires { wire < self.now.wires.count }
        ensures { result ≡ kind_of (number_at self.now 0 wire) }
    {
        Kind::from(self.get(Row::Kind, wire))
    }

    pub fn is_barred(&self, wire: u32) -> bool
        requires { wire < self.now.wires.count }
        ensures { result ≡ bars_of self.now.rows.now self.now.wires.count wire }
    {
        0 < self.get(Row::Bars, wire)
    }

    // How many wires the list of a wire has; the last wire has none.
    #[tactic(auto, using(crate::proofs::Fronts::list_long, crate::proofs::Fronts::cell_past))]
    pub fn list_length(&self, wire: u32) -> u32
        requires { wire < self.now.wires.count }
        ensures { result ≡ length (list_of self.now wire) }
    {
        if wire + 1 == self.wires.count {
            return 0;
        }
        let end = self.get(Row::Lists, wire + 1).min(2 * self.wires.count);
        end.saturating_sub(self.get(Row::Lists, wire))
    }

    // The wire at i of the list of a wire.
    #[tactic(auto, using(crate::proofs::Fronts::list_long, crate::proofs::Fronts::list_at))]
    pub fn listed(&self, wire: u32, i: u32) -> u32
        requires wire { wire < self.now.wires.count }
        requires within { i < length (list_of self.now wire) }
        ensures { result ≡ slice_index (list_of self.now wire) i }
    {
        let begin = self.get(Row::Lists, wire);
        let lists = Row::Fed.number() * self.wires.count as usize;
        self.rows[lists + (begin as usize + i as usize)]
    }
}
