// Reads what a line of the text has to have.
ghost use Rattle.std.specs.Prelude.{◌≡◌, IfOk};
ghost use Rattle.tokens.specs.Places.{line_of};
ghost use Rattle.tokens.specs.Lines.{number_at, pass_at, rule_at, end_at, line_at, landed};

use crate::cursor::Cursor;
use crate::fault::Fault;
use crate::gate::{Rule, find_rule};
use crate::token::{Numeral, Token};
use circuits::answer::Refusal;

// A gate line: its counts, its word's rule, and where its wires stand in the text.
#[derive(Clone, Copy)]
pub struct GateLine {
    pub first: usize,
    pub inputs: u32,
    pub results: u32,
    pub wires: usize,
    pub rule: Rule,
}

impl<'a> Cursor<'a> {
    // The number that is due here.
    pub fn number(&mut self) -> Result<Numeral, Fault>
        ensures result { landed result self.new.at ≡ number_at self.old.text.now self.old.at }
        ensures line { IfOk result (λ n. line_of self.new.text.now n.at ≡ self.new.line) }
        ensures text { self.new.text ≡ self.old.text }
    {
        match self.token()? {
            Token::Number { value, at, .. } => Ok(Numeral { value, at }),
            Token::Word { at, .. } | Token::End { at } => {
                Err(self.fault(Refusal::NotANumber, at))
            }
        }
    }

    // The rule of the gate word that is due here.
    fn gate_word(&mut self) -> Result<Rule, Fault>
        ensures result { landed result self.new.at ≡ rule_at self.old.text.now self.old.at }
        ensures text { self.new.text ≡ self.old.text }
    {
        match self.token()? {
            Token::Word { bytes, at } => {
                find_rule(bytes).ok_or(self.fault(Refusal::UnknownWord, at))
            }
            Token::Number { at, .. } | Token::End { at } => {
                Err(self.fault(Refusal::UnknownWord, at))
            }
        }
    }

    // The line's end, which is due here.
    pub(crate) fn line_end(&mut self) -> Result<(), Fault>
        ensures result { landed result self.new.at ≡ end_at self.old.text.now self.old.at }
        ensures text { self.new.text ≡ self.old.text }
    {
        match self.token()? {
            Token::End { .. } => Ok(()),
            Token::Number { at, .. } | Token::Word { at, .. } => {
                Err(self.fault(Refusal::TokensLeftOver, at))
            }
        }
    }

    // Passes k numbers, which are due here.
    pub fn pass_numbers(&mut self, k: u32) -> Result<(), Fault>
        ensures result { landed result self.new.at ≡ pass_at self.old.text.now k self.old.at }
        ensures text { self.new.text ≡ self.old.text }
    {
        for _ in 0..k {
            self.number()?;
        }
        Ok(())
    }

    // A gate line, read whole for what is not a number, an unknown word and tokens left over.
    pub fn gate_line(&mut self) -> Result<GateLine, Fault>
        ensures result { landed result self.new.at ≡ line_at self.old.text.now self.old.at }
        ensures text { self.new.text ≡ self.old.text }
    {
        let inputs = self.number()?;
        let results = self.number()?;
        let wires = self.at;
        self.pass_numbers(inputs.value)?;
        self.pass_numbers(results.value)?;
        let rule = self.gate_word()?;
        self.line_end()?;
        Ok(GateLine {
            first: inputs.at,
            inputs: inputs.value,
            results: results.value,
            wires,
            rule,
        })
    }
}
