// The wires that are made so far.
ghost use Rattle.std.specs.Prelude.{◌≡◌, ◌+◌, ◌^◌, ◌<◌, ◌≤◌, false, length, take, slice_set};
ghost use Rattle.reading.specs.Texts.{made, inputs};
ghost use Rattle.reading.specs.Holds.{Keeps};

use circuits::making::{Entry, Making};

// The memory that is lent for a circuit: entries by rank, ranks by name, and how many wires are made. Reading keeps to lent memory,
// so the rows stand side by side with a count, and not in a `Vec`.
#[derive(Drop)]
pub(crate) struct Made<'a> {
    pub(crate) table: &'a mut [Entry],
    pub(crate) ranks: &'a mut [u32],
    pub(crate) count: u32,
    ghost small: { length table.now < 2 ^ 32 },
    ghost keeps: { Keeps count table.now ranks.now },
}

// Writes one wire into both memories, in one call, since what they keep is broken between the two writes.
fn write(table: &mut [Entry], ranks: &mut [u32], rank: u32, wire: Entry)
    requires row { rank < length table.old }
    requires named { wire.name < length ranks.old }
    ensures table { table.new ≡ slice_set table.old rank wire }
    ensures ranks { ranks.new ≡ slice_set ranks.old wire.name rank }
{
    table[rank as usize] = wire;
    ranks[wire.name as usize] = rank;
}

impl<'a> Made<'a> {
    ghost use Rattle.reading.specs.Memory.{Lasts};

    // The circuit's inputs, and no other wire.
    pub(crate) fn of_inputs(table: &'a mut [Entry], ranks: &'a mut [u32], count: u32) -> Made<'a>
        requires small { length table.old < 2 ^ 32 }
        requires names { length ranks.old ≡ length table.old }
        requires few { count ≤ length table.old }
        ensures front { take result.count result.table.now ≡ inputs count }
        ensures rows { length result.table.now ≡ length table.old }
        ensures same_table { result.table.ghost_name ≡ table.entry.ghost_name }
        ensures same_ranks { result.ranks.ghost_name ≡ ranks.entry.ghost_name }
    {
        // No rank is the number of wires: it stands for a name that is not made.
        ranks.fill(table.len() as u32);
        let mut made = Made {
            table,
            ranks,
            count: 0,
        };
        // No slice to walk: the name of an input is its number.
        for name in 0..count {
            made.put(Making::Input, name);
        }
        made
    }

    // Makes one more wire.
    pub(crate) fn put(&mut self, making: Making, name: u32)
        requires named { name < length self.old.table.now }
        requires fresh { made (take self.old.count self.old.table.now) name ≡ false }
        ensures table { self.new.table.now ≡ slice_set self.old.table.now self.old.count (record { making = making; name = name }) }
        ensures ranks { self.new.ranks.now ≡ slice_set self.old.ranks.now name self.old.count }
        ensures count { self.new.count ≡ self.old.count + 1 }
        ensures lasts { Lasts self.old self.new }
    {
        let rank = self.count;
        write(self.table, self.ranks, rank, Entry { making, name });
        self.count = rank + 1;
    }
}
