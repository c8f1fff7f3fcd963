// The parts of reading a gate line.
ghost use Rattle.std.specs.Prelude.{◌≡◌, true, is_ok, if◌then◌else◌, Ok, slice_index};
ghost use Rattle.tokens.specs.Places.{line_of};
ghost use Rattle.tokens.specs.Lines.{number_at};
ghost use Rattle.reading.specs.Texts.{fits, suits};
ghost use Rattle.reading.specs.Holds.{making_in, two, got};

use crate::made::Made;
use circuits::making::Making;
use tokens::cursor::Cursor;
use tokens::gate::{Count, Gate, Rule};
use tokens::token::Numeral;

fn does_fit(count: Count, n: u32, c: u32) -> bool
    ensures { result ≡ fits count n c }
{
    match count {
        Count::Exactly(k) => c == k,
        Count::Times(k) => u64::from(c) == u64::from(k) * u64::from(n),
    }
}

// Whether the counts suit the word.
pub(crate) fn does_suit(rule: Rule, inputs: u32, results: u32) -> bool
    ensures { result ≡ suits rule inputs results }
{
    results >= 1
        && does_fit(rule.inputs, results, inputs)
        && does_fit(rule.results, results, results)
}

// Whether a wire is made of two others.
pub(crate) fn takes_two(gate: Gate) -> bool
    ensures { result ≡ two gate }
{
    matches!(gate, Gate::Product | Gate::Sum)
}

// A number that was read here before.
pub(crate) fn reread(cursor: &mut Cursor) -> Numeral
    requires { is_ok (number_at cursor.old.text.now cursor.old.at) ≡ true }
    ensures value { Ok (result, cursor.new.at) ≡ number_at cursor.old.text.now cursor.old.at }
    ensures line { line_of cursor.new.text.now result.at ≡ cursor.new.line }
    ensures text { cursor.new.text ≡ cursor.old.text }
{
    cursor.number().unwrap()
}

impl<'a> Made<'a> {
    // 0 past the last name, as the definition has it.
    fn rank_of(&self, name: u32) -> u32
        ensures { result ≡ slice_index self.now.ranks.now name }
    {
        self.ranks.get(name as usize).copied().unwrap_or(0)
    }

    // How a gate makes a wire of operands with these names.
    fn making_of(&self, gate: Gate, a: u32, b: u32) -> Making
        ensures { result ≡ making_in gate self.now.ranks.now a b }
    {
        match gate {
            Gate::Product => Making::Product(self.rank_of(a), self.rank_of(b)),
            Gate::Sum => Making::Sum(self.rank_of(a), self.rank_of(b)),
            Gate::Inversion => Making::Inversion(self.rank_of(a)),
            Gate::Constant => Making::Constant(a == 1),
            Gate::Copy => Making::Copy(self.rank_of(a)),
        }
    }

    // How the next wire of a gate line is made; its operands are read here.
    pub(crate) fn take_making(&self, gate: Gate, left: &mut Cursor, right: &mut Cursor) -> Making
        requires left { is_ok (number_at left.old.text.now left.old.at) ≡ true }
        requires right { two gate ≡ true → is_ok (number_at right.old.text.now right.old.at) ≡ true }
        ensures making { result ≡ making_in gate self.now.ranks.now (got (number_at left.old.text.now left.old.at)).0.value (if two gate then (got (number_at right.old.text.now right.old.at)).0.value else 0) }
        ensures left { (left.new.text ≡ left.old.text) × (left.new.at ≡ (got (number_at left.old.text.now left.old.at)).1) }
        ensures right { (right.new.text ≡ right.old.text) × (right.new.at ≡ (if two gate then (got (number_at right.old.text.now right.old.at)).1 else right.old.at)) }
    {
        let a = reread(left).value;
        let b = if takes_two(gate) {
            reread(right).value
        } else {
            0
        };
        self.making_of(gate, a, b)
    }
}
