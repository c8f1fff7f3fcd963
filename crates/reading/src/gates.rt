// Reads the gate lines.
ghost use Rattle.std.specs.Prelude.{◌≡◌, ◌≤◌, length, OnOk};
ghost use Rattle.tokens.specs.Lines.{landed};
ghost use Rattle.tokens.specs.Headers.{line_start};
ghost use Rattle.tokens.specs.Tokens.{token_at};
ghost use Rattle.reading.specs.Texts.{gate_in, next_gate, gates_at, close, body_at, inputs, ranks_of};
ghost use Rattle.reading.specs.Holds.{bodied};
ghost use Rattle.reading.specs.Memory.{Lasts, wires_of};

use crate::made::Made;
use crate::parts::{does_suit, reread};
use circuits::answer::Refusal;
use circuits::making::Entry;
use tokens::cursor::Cursor;
use tokens::fault::Fault;
use tokens::header::Header;
use tokens::token::Token;

impl<'a> Made<'a> {
    // The gate line that begins here.
    fn gate_here(&mut self, cursor: &mut Cursor) -> Result<(), Fault>
        ensures result { landed (bodied result (wires_of self.new)) cursor.new.at ≡ gate_in cursor.old.text.now (length self.old.table.now) (wires_of self.old) cursor.old.at }
        ensures text { cursor.new.text ≡ cursor.old.text }
        ensures lasts { Lasts self.old self.new }
    {
        let mut wires = *cursor;
        let line = cursor.gate_line()?;
        let first = reread(&mut wires);
        if !does_suit(line.rule, line.inputs, line.results) {
            return Err(wires.fault(Refusal::CountsDoNotSuit, first.at));
        }
        reread(&mut wires);
        self.line(&wires, line)
    }

    // The next gate line.
    fn next_gate(&mut self, cursor: &mut Cursor) -> Result<(), Fault>
        ensures result { landed (bodied result (wires_of self.new)) cursor.new.at ≡ next_gate cursor.old.text.now (length self.old.table.now) (wires_of self.old) cursor.old.at }
        ensures text { cursor.new.text ≡ cursor.old.text }
        ensures lasts { Lasts self.old self.new }
    {
        cursor.next_line();
        let mut ahead = *cursor;
        if let Token::End { at } = ahead.token()? {
            return Err(ahead.fault(Refusal::WrongTotal, at));
        }
        self.gate_here(cursor)
    }

    // All gate lines.
    fn gates(&mut self, cursor: &mut Cursor, gates: u32) -> Result<(), Fault>
        ensures result { landed (bodied result (wires_of self.new)) cursor.new.at ≡ gates_at cursor.old.text.now (length self.old.table.now) gates (wires_of self.old) cursor.old.at }
        ensures text { cursor.new.text ≡ cursor.old.text }
        ensures lasts { Lasts self.old self.new }
    {
        for _ in 0..gates {
            self.next_gate(cursor)?;
        }
        Ok(())
    }

    // No line is left, and every wire is made.
    fn close(&self, cursor: &mut Cursor) -> Result<(), Fault>
        ensures all { OnOk result (self.now.count ≡ length self.now.table.now) }
        ensures result { bodied result (wires_of self.now) ≡ close cursor.old.text.now (length self.now.table.now) (wires_of self.now) (token_at cursor.old.text.now (line_start cursor.old.text.now cursor.old.at)) }
    {
        cursor.next_line();
        match cursor.token()? {
            Token::End { .. } if self.count as usize == self.table.len() => Ok(()),
            Token::End { at } | Token::Number { at, .. } | Token::Word { at, .. } => {
                Err(cursor.fault(Refusal::WrongTotal, at))
            }
        }
    }

    // What follows the first three lines, where the inputs alone are made.
    fn body(&mut self, cursor: &mut Cursor, header: Header) -> Result<(), Fault>
        requires rows { length self.old.table.now ≡ header.wires }
        requires front { wires_of self.old ≡ inputs header.inputs }
        ensures result { bodied result self.new.table.now ≡ body_at cursor.old.text.now header cursor.old.at }
        ensures ranks { OnOk result (self.new.ranks.now ≡ ranks_of self.new.table.now header.wires) }
        ensures lasts { Lasts self.old self.new }
    {
        self.gates(cursor, header.gates)?;
        self.close(cursor)
    }
}

// What follows the first three lines.
pub(crate) fn read_body(
    cursor: &mut Cursor,
    header: Header,
    table: &mut [Entry],
    ranks: &mut [u32],
) -> Result<(), Fault>
    requires rows { length table.old ≡ header.wires }
    requires names { length ranks.old ≡ header.wires }
    requires few { header.inputs ≤ header.wires }
    ensures result { bodied result table.new ≡ body_at cursor.old.text.now header cursor.old.at }
    ensures ranks { OnOk result (ranks.new ≡ ranks_of table.new header.wires) }
{
    let mut made = Made::of_inputs(table, ranks, header.inputs);
    made.body(cursor, header)
}
