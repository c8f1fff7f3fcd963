ghost use Rattle.std.specs.Prelude.{◌≡◌};
ghost use Rattle.circuits.specs.Answers.{number_of};

use std::fmt;

// Why a call is refused, or a text.
#[derive(Clone, Copy, PartialEq, Eq, Debug)]
pub enum Refusal {
    TextTooLong = 1,
    ByteNotAllowed = 2,
    NotANumber = 3,
    UnknownWord = 4,
    CountOutOfBounds = 5,
    CountsDoNotSuit = 6,
    BadInput = 7,
    BadResult = 8,
    TokensLeftOver = 9,
    WrongTotal = 10,
    MemoryTooShort = 11,
    BadRank = 12,
    IndexTooHigh = 13,
    BadWidth = 14,
    AlreadyBarred = 15,
    NotBarred = 16,
    NotOpen = 17,
    StillOpen = 18,
    PlanBlocked = 19,
}

impl Refusal {
    // The number by which it is known.
    pub fn number(self) -> u8
        ensures { result ≡ number_of self }
    {
        self as u8
    }

    // The same in a few words for people.
    fn reason(self) -> &'static str {
        match self {
            Refusal::TextTooLong => "the text is too long",
            Refusal::ByteNotAllowed => "a byte is not allowed in a text",
            Refusal::NotANumber => "a number is due",
            Refusal::UnknownWord => "a gate word is due",
            Refusal::CountOutOfBounds => "a count of the header is outside its bounds",
            Refusal::CountsDoNotSuit => "the counts of a gate line do not suit its word",
            Refusal::BadInput => "an input is not made yet, is no wire, or is no constant",
            Refusal::BadResult => "a result is made already, or is no wire",
            Refusal::TokensLeftOver => "a line goes on after its end",
            Refusal::WrongTotal =>
                "the gate lines are not as many as the header says, or leave a wire out",
            Refusal::MemoryTooShort => "the memory is too short",
            Refusal::BadRank => "a rank is not that of a produced wire, or not in ascending order",
            Refusal::IndexTooHigh => "there is no route of this index",
            Refusal::BadWidth => "a width is outside its bounds",
            Refusal::AlreadyBarred => "the wire is barred already",
            Refusal::NotBarred => "the wire is not barred",
            Refusal::NotOpen => "the planning is not open",
            Refusal::StillOpen => "the planning is still open",
            Refusal::PlanBlocked => "the planning is blocked, so there is no plan",
        }
    }
}

impl fmt::Display for Refusal {
    fn fmt<W: fmt::Write>(&self, f: &mut fmt::Formatter<W>) -> fmt::Result {
        f.write_str(self.reason())
    }
}

// The first wire whose own level passes the limit, by its rank, with that level.
#[derive(Clone, Copy, PartialEq, Eq, Debug)]
pub struct Overrun {
    pub rank: u32,
    pub level: u32,
}
