// The gate words of the format, their counts and what they make.
ghost use Rattle.std.specs.Prelude.{◌≡◌, map};
ghost use Rattle.tokens.specs.Gates.{entry, look_up, rule_of};

// What a gate word makes.
#[derive(Clone, Copy, Debug, PartialEq, Eq)]
pub enum Gate {
    Product,
    Sum,
    Inversion,
    Constant,
    Copy,
}

// How many inputs or results: a fixed number, or a multiple of the line's own n; two kinds of counts, so neither is the want of one.
#[derive(Clone, Copy, Debug, PartialEq, Eq)]
pub enum Count {
    Exactly(u32),
    Times(u32),
}

// What stands in the row of a word: how many inputs and results its line has, and what it makes.
#[derive(Clone, Copy, Debug, PartialEq, Eq)]
pub struct Rule {
    pub inputs: Count,
    pub results: Count,
    pub making: Gate,
}

#[derive(Clone, Copy)]
struct Row {
    word: &'static [u8],
    rule: Rule,
}

const ROWS: [Row; 6] = [
    Row {
        word: b"AND",
        rule: Rule {
            inputs: Count::Exactly(2),
            results: Count::Exactly(1),
            making: Gate::Product,
        },
    },
    Row {
        word: b"XOR",
        rule: Rule {
            inputs: Count::Exactly(2),
            results: Count::Exactly(1),
            making: Gate::Sum,
        },
    },
    Row {
        word: b"INV",
        rule: Rule {
            inputs: Count::Exactly(1),
            results: Count::Exactly(1),
            making: Gate::Inversion,
        },
    },
    Row {
        word: b"EQ",
        rule: Rule {
            inputs: Count::Exactly(1),
            results: Count::Exactly(1),
            making: Gate::Constant,
        },
    },
    Row {
        word: b"EQW",
        rule: Rule {
            inputs: Count::Exactly(1),
            results: Count::Exactly(1),
            making: Gate::Copy,
        },
    },
    Row {
        word: b"MAND",
        rule: Rule {
            inputs: Count::Times(2),
            results: Count::Times(1),
            making: Gate::Product,
        },
    },
];

// The rule of the first row of this word.
fn find_row(rows: &[Row], word: &[u8]) -> Option<Rule>
    ensures { result ≡ look_up (map entry rows.now) word.now }
{
    rows.iter().find(|row| row.word == word).map(|row| row.rule)
}

// The rule of a gate word, if it is one.
pub(crate) fn find_rule(word: &[u8]) -> Option<Rule>
    ensures { result ≡ rule_of word.now }
{
    find_row(&ROWS, word)
}
