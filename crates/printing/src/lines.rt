// The texts that are printed.
ghost use Rattle.std.specs.Prelude.{◌≡◌, length, decimal, nat_lt};
ghost use Rattle.writing.specs.Pages.{Puts};
ghost use Rattle.writing.specs.Writes.{name_of};
ghost use Rattle.plannings.specs.Running.{WritesFront};
ghost use Rattle.printing.specs.Lines.{lines_text, plan_text, fault_text, names_at};

use circuits::answer::Refusal;
use circuits::making::Entry;
use tokens::fault::Fault;
use writing::page::Page;
use writing::text::{Text, write_text};

// The plan of these ranks, by the names in the table.
#[derive(Drop)]
struct Plan<'a> {
    table: &'a [Entry],
    ranks: &'a [u32],
}

impl<'a> Plan<'a> {
    fn name(&self, rank: u32) -> u32
        ensures { result ≡ name_of self.now.table.now rank }
    {
        self.table.get(rank as usize).map_or(0, |entry| entry.name)
    }

    // The name of each rank, on a line.
    fn put_names(&self, page: &mut Page)
        ensures { Puts page.old (lines_text (names_at self.now.table.now self.now.ranks.now)) page.new }
    {
        for rank in self.ranks {
            page.put_number(self.name(*rank) as usize);
            page.put_byte(b'\n');
        }
    }
}

impl<'a> Text for Plan<'a> {
    ghost bytes = { λ p. plan_text (names_at p.table.now p.ranks.now) };

    fn put(&self, page: &mut Page) {
        page.put_bytes(b"PLAN ");
        page.put_number(self.ranks.len());
        page.put_byte(b'\n');
        self.put_names(page);
    }
}

// The number of a fault, its line and its byte. A type of its own, since neither the fault nor the trait is of this crate; the words are those
// of its `Display`, which promises its bytes only where it answers Ok.
#[derive(Drop)]
struct Refused {
    fault: Fault,
}

impl Text for Refused {
    ghost bytes = { λ r. fault_text r.fault };

    fn put(&self, page: &mut Page) {
        let Fault { line, byte, .. } = self.fault;
        page.put_bytes(b"REFUSED ");
        page.put_number(self.fault.number() as usize);
        page.put_bytes(b" LINE ");
        page.put_number(line);
        page.put_bytes(b" BYTE ");
        page.put_number(byte);
        page.put_byte(b'\n');
    }
}

// The plan at the front of the output, or a refusal where that is too short.
#[tactic(auto, using(crate::proofs::Front::front))]
pub(crate) fn write_plan(out: &mut [u8], table: &[Entry], ranks: &[u32]) -> Result<usize, Refusal>
    ensures { WritesFront (nat_lt (length out.old) (length (plan_text (names_at table.now ranks.now)))) (plan_text (names_at table.now ranks.now)) out.old result out.new }
{
    write_text(&Plan { table, ranks }, out)
}

// The fault at the front of the output, or a refusal where that is too short.
#[tactic(auto, using(crate::proofs::Front::front))]
pub(crate) fn write_fault(out: &mut [u8], fault: Fault) -> Result<usize, Refusal>
    ensures { WritesFront (nat_lt (length out.old) (length (fault_text fault))) (fault_text fault) out.old result out.new }
{
    write_text(&Refused { fault }, out)
}
