// The lines of a circuit.
ghost use Rattle.std.specs.Prelude.{◌-◌, ◌≤◌, [], ◌∷◌, ◌++◌, length};
ghost use Rattle.writing.specs.Pages.{Puts};
ghost use Rattle.writing.specs.Writes.{gate_text, width_text, head_text};

use crate::page::Page;

impl<'a> Page<'a> {
    // A gate line of these inputs and one result.
    pub(crate) fn put_gate(&mut self, ins: &[u32], name: u32, word: &[u8])
        ensures { Puts self.old (gate_text ins.now name word.now) self.new }
    {
        self.put_number(ins.len());
        self.put_spaced(1);
        self.put_all(ins);
        self.put_spaced(name as usize);
        self.put_byte(b' ');
        self.put_bytes(word);
        self.put_byte(b'\n');
    }

    // A line of one width, or of none.
    fn put_width(&mut self, n: u32)
        ensures { Puts self.old (width_text n) self.new }
    {
        if n == 0 {
            self.put_number(0);
        } else {
            self.put_number(1);
            self.put_spaced(n as usize);
        }
        self.put_byte(b'\n');
    }

    // The first three lines, and an empty one.
    pub(crate) fn put_head(&mut self, wires: u32, inputs: u32, outputs: u32)
        requires { inputs ≤ wires }
        ensures { Puts self.old (head_text wires inputs outputs) self.new }
    {
        self.put_number((wires - inputs) as usize);
        self.put_spaced(wires as usize);
        self.put_byte(b'\n');
        self.put_width(inputs);
        self.put_width(outputs);
        self.put_byte(b'\n');
    }
}
