// Texts that are written into lent memory, or only measured.
ghost use Rattle.std.specs.Prelude.{◌≡◌, ◌^◌, ◌-◌, List, ℕ, length, min};
ghost use Rattle.writing.specs.Pages.{Puts};
ghost use Rattle.writing.specs.Writes.{answered, left};

use crate::page::Page;
use circuits::answer::Refusal;

// What can be put on a page.
pub trait Text {
    // Its bytes.
    ghost bytes: { Self → List ℕ };

    fn put(&self, page: &mut Page)
        ensures { Puts page.old (bytes self.now) page.new };
}

// How many bytes a text has, but no more than a count can say.
#[tactic(auto, using(crate::proofs::Pages::counted_all))]
pub fn measure<T: Text>(text: &T) -> usize
    ensures { result ≡ min (length (T.bytes text.now)) (2 ^ 64 - 1) }
{
    let mut page = Page::new(&mut []);
    text.put(&mut page);
    page.len()
}

// Writes a text at the front of the room, and answers its length. A room that is too short is refused, and left as it was.
pub fn write_text<T: Text>(text: &T, room: &mut [u8]) -> Result<usize, Refusal>
    ensures answer { result ≡ answered (T.bytes text.now) (length room.old) }
    ensures room { room.new ≡ left (T.bytes text.now) room.old }
{
    let len = measure(text);
    if len > room.len() {
        return Err(Refusal::MemoryTooShort);
    }
    let mut page = Page::new(room);
    text.put(&mut page);
    Ok(len)
}
