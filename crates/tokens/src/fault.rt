ghost use Rattle.std.specs.Prelude.{◌≡◌};
ghost use Rattle.circuits.specs.Answers.{number_of};
ghost use Rattle.tokens.specs.Faults.{finder};

use circuits::answer::Refusal;
use std::fmt;
use std::fmt::{Display, Formatter, Write};

// The reader that finds a fault.
#[derive(Clone, Copy, Debug, PartialEq, Eq)]
pub enum Reader {
    Token,
    Line,
    Circuit,
}

// A refusal says which reader finds it.
impl From<Refusal> for Reader {
    ghost from_gives = { λ refusal reader. reader ≡ finder refusal };

    fn from(refusal: Refusal) -> Reader {
        match refusal {
            Refusal::ByteNotAllowed | Refusal::NotANumber => Reader::Token,
            Refusal::UnknownWord | Refusal::CountsDoNotSuit | Refusal::TokensLeftOver =>
                Reader::Line,
            _ => Reader::Circuit,
        }
    }
}

// Why a text is refused, and where: the line from 1, the byte from 0. The reader follows from the refusal; it is a field, so that a fault says it where it is
// compared and shown.
#[derive(Clone, Copy, Debug, PartialEq, Eq)]
pub struct Fault {
    pub refusal: Refusal,
    pub line: usize,
    pub byte: usize,
    pub reader: Reader,
}

impl Fault {
    // A fault at a byte of a line, found by the reader of its refusal.
    pub fn new(refusal: Refusal, line: usize, byte: usize) -> Fault
        ensures { result ≡ record { refusal = refusal; line = line; byte = byte; reader = finder refusal } }
    {
        Fault {
            refusal,
            line,
            byte,
            reader: Reader::from(refusal),
        }
    }

    // The number of the refusal.
    pub fn number(&self) -> u8
        ensures { result ≡ number_of self.now.refusal }
    {
        self.refusal.number()
    }
}

// The words of a refused text.
impl Display for Fault {
    fn fmt<W: Write>(&self, f: &mut Formatter<W>) -> fmt::Result {
        write!(
            f,
            "REFUSED {} LINE {} BYTE {}",
            self.number(),
            self.line,
            self.byte,
        )
    }
}
