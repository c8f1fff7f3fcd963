// Reads the first three lines.
ghost use Rattle.std.specs.Prelude.{◌≡◌};
ghost use Rattle.tokens.specs.Lines.{landed};
ghost use Rattle.tokens.specs.Headers.{gap, line_start, widths_at, sum_at, header_at};

use crate::cursor::Cursor;
use crate::fault::Fault;
use crate::token::is_blank;
use circuits::answer::Refusal;

// A circuit has at least 1 wire and at most this many.
pub const MOST_WIRES: u32 = 1_048_576;

// A circuit has at most this many input values, and as many output values.
const MOST_VALUES: u32 = 64;

// What the first three lines say, with the place of the number of wires.
#[derive(Clone, Copy, Debug, PartialEq, Eq)]
pub struct Header {
    pub gates: u32,
    pub wires: u32,
    pub wires_at: usize,
    pub wires_line: usize,
    pub inputs: u32,
    pub outputs: u32,
}

impl<'a> Cursor<'a> {
    // The sum of k widths.
    fn widths(&mut self, k: u32, wires: u32) -> Result<u32, Fault>
        ensures result { landed result self.new.at ≡ widths_at self.old.text.now wires k 0 self.old.at }
        ensures text { self.new.text ≡ self.old.text }
    {
        let mut sum = 0;
        for _ in 0..k {
            let width = self.number()?;
            if !(1..=wires - sum).contains(&width.value) {
                return Err(self.fault(Refusal::BadWidth, width.at));
            }
            sum += width.value;
        }
        Ok(sum)
    }

    // To the first byte of the next line that has a token, or to the text's end.
    pub fn next_line(&mut self)
        ensures text { self.new.text ≡ self.old.text }
        ensures at { self.new.at ≡ line_start self.old.text.now self.old.at }
    {
        // In locals, since a loop over the fields may write both to memory for each byte.
        let mut at = self.at;
        let mut line = self.line;
        for b in &self.text[at..] {
            if !is_gap(*b) {
                break;
            }
            if *b == b'\n' {
                line += 1;
            }
            at += 1;
        }
        self.at = at;
        self.line = line;
    }

    // A line of widths, and their sum.
    fn width_line(&mut self, wires: u32) -> Result<u32, Fault>
        ensures result { landed result self.new.at ≡ sum_at self.old.text.now wires self.old.at }
        ensures text { self.new.text ≡ self.old.text }
    {
        self.next_line();
        let count = self.number()?;
        if count.value > MOST_VALUES {
            return Err(self.fault(Refusal::CountOutOfBounds, count.at));
        }
        let sum = self.widths(count.value, wires)?;
        self.line_end()?;
        Ok(sum)
    }

    // The first three lines.
    pub fn header(&mut self) -> Result<Header, Fault>
        ensures result { landed result self.new.at ≡ header_at self.old.text.now self.old.at }
        ensures text { self.new.text ≡ self.old.text }
    {
        self.next_line();
        let gates = self.number()?;
        let wires = self.number()?;
        let wires_line = self.line;
        if !(1..=MOST_WIRES).contains(&wires.value) {
            return Err(self.fault(Refusal::CountOutOfBounds, wires.at));
        }
        self.line_end()?;
        let inputs = self.width_line(wires.value)?;
        let outputs = self.width_line(wires.value)?;
        Ok(Header {
            gates: gates.value,
            wires: wires.value,
            wires_at: wires.at,
            wires_line,
            inputs,
            outputs,
        })
    }
}

// A separator, or the end of a line.
fn is_gap(b: u8) -> bool
    ensures { result ≡ gap b }
{
    is_blank(b) || b == b'\n'
}
