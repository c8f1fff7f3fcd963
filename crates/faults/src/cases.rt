// Texts with the answer that each must get, read into memory for five wires.
use tokens::fault::Reader;

// What a reading leaves of the memory: all as it was; the first entries and ranks cleared; or as many filled.
#[derive(Clone, Copy, PartialEq, Eq, Debug)]
pub enum Left {
    Untouched,
    Cleared(usize),
    Filled(usize),
}

// The number of a refusal, with its line and byte, and the reader that finds it. A number, so that the table tests the numbers as well.
#[derive(Clone, Copy, PartialEq, Eq, Debug)]
pub struct Place(pub u8, pub usize, pub usize, pub Reader);

// A text; where it is refused, if it is; and what is left. Names would only lengthen sixty rows of one form.
#[derive(Clone, Copy)]
pub struct Case(pub &'static [u8], pub Option<Place>, pub Left);

pub const CASES: [Case; 60] = [
    // No number, or one too large, where one is due.
    Case(b"", Some(Place(3, 1, 0, Reader::Token)), Left::Untouched),
    Case(
        b"\n \n",
        Some(Place(3, 3, 3, Reader::Token)),
        Left::Untouched,
    ),
    Case(b"2", Some(Place(3, 1, 1, Reader::Token)), Left::Untouched),
    Case(
        b"2 \n1 2\n1 1\n",
        Some(Place(3, 1, 2, Reader::Token)),
        Left::Untouched,
    ),
    Case(
        b"x 4\n",
        Some(Place(3, 1, 0, Reader::Token)),
        Left::Untouched,
    ),
    Case(
        b"2 4x\n",
        Some(Place(3, 1, 2, Reader::Token)),
        Left::Untouched,
    ),
    Case(
        b"2 -4\n",
        Some(Place(3, 1, 2, Reader::Token)),
        Left::Untouched,
    ),
    Case(
        b"2 4294967296\n",
        Some(Place(3, 1, 2, Reader::Token)),
        Left::Untouched,
    ),
    Case(
        b"2 00000000004\n",
        Some(Place(3, 1, 2, Reader::Token)),
        Left::Untouched,
    ),
    Case(
        b"2 4\n",
        Some(Place(3, 2, 4, Reader::Token)),
        Left::Untouched,
    ),
    Case(
        b"2 4\n2 1\n",
        Some(Place(3, 2, 7, Reader::Token)),
        Left::Untouched,
    ),
    Case(
        b"2 4\n1 2\n\n",
        Some(Place(3, 4, 9, Reader::Token)),
        Left::Untouched,
    ),
    Case(
        b"2 4\n1 2\n1 1\n\n2 1 0 1\n2 1 2 0 3 AND\n",
        Some(Place(3, 5, 20, Reader::Token)),
        Left::Cleared(4),
    ),
    Case(
        b"2 4\n1 2\n1 1\n\n2 1 0 AND 2\n2 1 2 0 3 AND\n",
        Some(Place(3, 5, 19, Reader::Token)),
        Left::Cleared(4),
    ),
    // A byte not allowed.
    Case(
        b"\x7f",
        Some(Place(2, 1, 0, Reader::Token)),
        Left::Untouched,
    ),
    Case(
        b"2 4\n\r\n1 2 \x80",
        Some(Place(2, 3, 10, Reader::Token)),
        Left::Untouched,
    ),
    Case(
        b"2 4\0\n1 2\n1 1\n",
        Some(Place(2, 1, 3, Reader::Token)),
        Left::Untouched,
    ),
    Case(
        b"2 4\n1 2\n1 1\n\n2 1 0 1 2 AND\x01\n2 1 2 0 3 AND\n",
        Some(Place(2, 5, 26, Reader::Token)),
        Left::Cleared(4),
    ),
    Case(
        b"2 4\n1 2\n1 1\n\n2 1 0 1 2 AND\n2 1 2 0 3 AND\n\xff",
        Some(Place(2, 7, 41, Reader::Token)),
        Left::Cleared(4),
    ),
    // No known word where one is due.
    Case(
        b"2 4\n1 2\n1 1\n\n2 1 0 1 2 NAND\n2 1 2 0 3 AND\n",
        Some(Place(4, 5, 23, Reader::Line)),
        Left::Cleared(4),
    ),
    Case(
        b"2 4\n1 2\n1 1\n\n2 1 0 1 2 and\n2 1 2 0 3 AND\n",
        Some(Place(4, 5, 23, Reader::Line)),
        Left::Cleared(4),
    ),
    Case(
        b"2 4\n1 2\n1 1\n\n2 1 0 1 2 3\n2 1 2 0 3 AND\n",
        Some(Place(4, 5, 23, Reader::Line)),
        Left::Cleared(4),
    ),
    Case(
        b"2 4\n1 2\n1 1\n\n2 1 0 1 2\n2 1 2 0 3 AND\n",
        Some(Place(4, 5, 22, Reader::Line)),
        Left::Cleared(4),
    ),
    // A header count outside its bounds.
    Case(
        b"0 0\n0\n0\n",
        Some(Place(5, 1, 2, Reader::Circuit)),
        Left::Untouched,
    ),
    Case(
        b"0 1048577\n0\n0\n",
        Some(Place(5, 1, 2, Reader::Circuit)),
        Left::Untouched,
    ),
    Case(
        b"0 4\n65 1\n",
        Some(Place(5, 2, 4, Reader::Circuit)),
        Left::Untouched,
    ),
    Case(
        b"0 4\n0\n100\n",
        Some(Place(5, 3, 6, Reader::Circuit)),
        Left::Untouched,
    ),
    // A width 0, or one that takes the sum past the wires.
    Case(
        b"0 4\n2 1 0\n",
        Some(Place(14, 2, 8, Reader::Circuit)),
        Left::Untouched,
    ),
    Case(
        b"0 4\n2 3 2\n",
        Some(Place(14, 2, 8, Reader::Circuit)),
        Left::Untouched,
    ),
    Case(
        b"0 4\n1 4\n1 5\n",
        Some(Place(14, 3, 10, Reader::Circuit)),
        Left::Untouched,
    ),
    // Tokens left over.
    Case(
        b"2 4 1\n1 2\n1 1\n",
        Some(Place(9, 1, 4, Reader::Line)),
        Left::Untouched,
    ),
    Case(
        b"2 4\n1 2 1\n1 1\n",
        Some(Place(9, 2, 8, Reader::Line)),
        Left::Untouched,
    ),
    Case(
        b"2 4\n1 2\n1 1\n\n2 1 0 1 2 AND x\n2 1 2 0 3 AND\n",
        Some(Place(9, 5, 27, Reader::Line)),
        Left::Cleared(4),
    ),
    Case(
        b"2 4\n1 2\n1 1\n\n1 1 9 9 AND 5\n2 1 2 0 3 AND\n",
        Some(Place(9, 5, 25, Reader::Line)),
        Left::Cleared(4),
    ),
    // Counts that do not suit the word, tested before the wires.
    Case(
        b"2 4\n1 2\n1 1\n\n1 1 0 2 AND\n2 1 2 0 3 AND\n",
        Some(Place(6, 5, 13, Reader::Line)),
        Left::Cleared(4),
    ),
    Case(
        b"2 4\n1 2\n1 1\n\n2 1 9 9 9 INV\n2 1 2 0 3 AND\n",
        Some(Place(6, 5, 13, Reader::Line)),
        Left::Cleared(4),
    ),
    Case(
        b"2 4\n1 2\n1 1\n\n 2 1 0 1 2 EQ\n2 1 2 0 3 AND\n",
        Some(Place(6, 5, 14, Reader::Line)),
        Left::Cleared(4),
    ),
    Case(
        b"2 4\n1 2\n1 1\n\n3 1 0 1 0 2 MAND\n2 1 2 0 3 AND\n",
        Some(Place(6, 5, 13, Reader::Line)),
        Left::Cleared(4),
    ),
    Case(
        b"2 4\n1 2\n1 1\n\n0 0 MAND\n2 1 2 0 3 AND\n",
        Some(Place(6, 5, 13, Reader::Line)),
        Left::Cleared(4),
    ),
    // An input not yet made, past the wires, or a wrong constant.
    Case(
        b"2 4\n1 2\n1 1\n\n2 1 0 9 2 AND\n",
        Some(Place(7, 5, 19, Reader::Circuit)),
        Left::Cleared(4),
    ),
    Case(
        b"2 4\n1 2\n1 1\n\n2 1 0 3 2 AND\n2 1 2 0 3 AND\n",
        Some(Place(7, 5, 19, Reader::Circuit)),
        Left::Cleared(4),
    ),
    Case(
        b"2 4\n1 2\n1 1\n\n2 1 0 2 2 XOR\n2 1 2 0 3 AND\n",
        Some(Place(7, 5, 19, Reader::Circuit)),
        Left::Cleared(4),
    ),
    Case(
        b"2 4\n1 2\n1 1\n\n1 1 2 2 EQ\n2 1 2 0 3 AND\n",
        Some(Place(7, 5, 17, Reader::Circuit)),
        Left::Cleared(4),
    ),
    Case(
        b"2 4\n1 2\n1 1\n\n1 1 9 9 EQW\n2 1 2 0 3 AND\n",
        Some(Place(7, 5, 17, Reader::Circuit)),
        Left::Cleared(4),
    ),
    Case(
        b"1 4\n1 2\n1 1\n4 2 0 1 1 3 0 9 MAND\n",
        Some(Place(7, 4, 22, Reader::Circuit)),
        Left::Cleared(4),
    ),
    // A result past the wires, or made already.
    Case(
        b"2 4\n1 2\n1 1\n\n2 1 0 1 4 AND\n2 1 2 0 3 AND\n",
        Some(Place(8, 5, 21, Reader::Circuit)),
        Left::Cleared(4),
    ),
    Case(
        b"2 4\n1 2\n1 1\n\n2 1 0 1 1 AND\n2 1 2 0 3 AND\n",
        Some(Place(8, 5, 21, Reader::Circuit)),
        Left::Cleared(4),
    ),
    Case(
        b"2 4\n1 2\n1 1\n\n2 1 0 1 2 AND\n2 1 2 0 2 AND\n",
        Some(Place(8, 6, 35, Reader::Circuit)),
        Left::Cleared(4),
    ),
    Case(
        b"1 4\n1 2\n1 1\n4 2 0 1 1 0 2 2 MAND\n",
        Some(Place(8, 4, 26, Reader::Circuit)),
        Left::Cleared(4),
    ),
    // More or fewer lines than told, or a wire never made.
    Case(
        b"2 4\n1 2\n1 1\n\n2 1 0 1 2 AND\n",
        Some(Place(10, 6, 27, Reader::Circuit)),
        Left::Cleared(4),
    ),
    Case(
        b"2 4\n1 2\n1 1\n\n2 1 0 1 2 AND\n\n \n",
        Some(Place(10, 8, 30, Reader::Circuit)),
        Left::Cleared(4),
    ),
    Case(
        b"2 4\n1 2\n1 1\n\n2 1 0 1 2 AND\n2 1 2 0 3 AND\n  x\n",
        Some(Place(10, 7, 43, Reader::Circuit)),
        Left::Cleared(4),
    ),
    Case(
        b"1 4\n1 2\n1 1\n2 1 0 1 2 AND\n",
        Some(Place(10, 5, 26, Reader::Circuit)),
        Left::Cleared(4),
    ),
    Case(
        b"1 4\n1 2\n1 1\n2 1 0 1 2 AND",
        Some(Place(10, 4, 25, Reader::Circuit)),
        Left::Cleared(4),
    ),
    // Memory too short.
    Case(
        b"2 6\n1 2\n1 1\nx",
        Some(Place(11, 1, 2, Reader::Circuit)),
        Left::Untouched,
    ),
    Case(
        b"\n\n0  1048576\n1 1048576\n0\n",
        Some(Place(11, 3, 5, Reader::Circuit)),
        Left::Untouched,
    ),
    // Circuits.
    Case(
        b"2 4\n1 2\n1 1\n\n2 1 0 1 2 AND\n2 1 2 0 3 AND\n",
        None,
        Left::Filled(4),
    ),
    Case(
        b"\r\n 2\t4\r\n1 2\r\n1 1\r\n2 1 1 0 3 XOR\r\n1 1 3 2 INV",
        None,
        Left::Filled(4),
    ),
    Case(
        b"1 5\n1 2\n1 1\n6 3 0 1 0 1 0 1 4 3 2 MAND\n",
        None,
        Left::Filled(5),
    ),
    Case(
        b"3 3\n0\n0\n1 1 1 2 EQ\n1 1 0 0 EQ\n1 1 2 1 EQW\n",
        None,
        Left::Filled(3),
    ),
];
