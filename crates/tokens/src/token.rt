ghost use Rattle.std.specs.Prelude.{◌≡◌, ◌≤◌, ℕ, Bool, length};
ghost use Rattle.std.specs.List.{prefix_len};
ghost use Rattle.tokens.specs.Places.{visible, blank, line_of};
ghost use Rattle.tokens.specs.Faults.{fault_at};
ghost use Rattle.tokens.specs.Tokens.{front, meant, no_token, token_at, past, start};
ghost use Rattle.tokens.specs.Cursors.{rest_of, Moved};

use crate::cursor::Cursor;
use crate::fault::Fault;
use crate::number::parse_number;
use circuits::answer::Refusal;

// A token of a line, whose bytes are a part of the text, with the byte where it begins; or the end of the line.
#[derive(Clone, Copy)]
pub enum Token<'a> {
    Number {
        value: u32,
        digits: &'a [u8],
        at: usize,
    },
    Word {
        bytes: &'a [u8],
        at: usize,
    },
    End {
        at: usize,
    },
}

// A number of the text, with the byte of its token.
#[derive(Clone, Copy, PartialEq, Eq, Debug)]
pub struct Numeral {
    pub value: u32,
    pub at: usize,
}

// A byte of a token.
fn is_visible(b: u8) -> bool
    ensures { result ≡ visible b }
{
    b.is_ascii_graphic()
}

// A separator.
pub(crate) fn is_blank(b: u8) -> bool
    ensures { result ≡ blank b }
{
    matches!(b, b'\t' | b'\r' | b' ')
}

// How many bytes at the front pass the test.
pub(crate) fn run_len<F: Fn(u8) -> bool>(bytes: &[u8], test: F) -> usize
    requires { F.IsAlwaysCallable test }
    ensures within { result ≤ length bytes.now }
    ensures run { (p : ℕ → Bool) → ((b : ℕ) (r : Bool) → F.post test b r → r ≡ p b) → result ≡ prefix_len p bytes.now }
{
    bytes.iter().take_while(|b| test(**b)).count()
}

impl<'a> Cursor<'a> {
    // To the first byte of this line that is no blank.
    fn skip_blanks(&mut self)
        ensures { Moved self.old self.new (prefix_len blank (rest_of self.old)) }
    {
        let rest = &self.text[self.at..];
        self.at += run_len(rest, is_blank);
    }

    // The bytes of the token that begins here, none where none does.
    fn visible_row(&mut self) -> &'a [u8]
        ensures row { result.now ≡ front (rest_of self.old) }
        ensures moved { Moved self.old self.new (length result.now) }
    {
        let rest = &self.text[self.at..];
        let row = &rest[..run_len(rest, is_visible)];
        self.at += row.len();
        row
    }

    // A fault at a byte of this line.
    pub fn fault(&self, refusal: Refusal, byte: usize) -> Fault
        ensures { line_of self.now.text.now byte ≡ self.now.line → result ≡ fault_at self.now.text.now refusal byte }
    {
        Fault::new(refusal, self.line, byte)
    }

    // The next token of this line, or the line's end.
    pub fn token(&mut self) -> Result<Token<'a>, Fault>
        ensures result { meant result ≡ token_at self.old.text.now self.old.at }
        ensures text { self.new.text ≡ self.old.text }
        ensures at { self.new.at ≡ past (meant result) }
        ensures line { line_of self.new.text.now (start (meant result)) ≡ self.new.line }
    {
        self.skip_blanks();
        let at = self.at;
        let bytes = self.visible_row();
        if bytes.is_empty() {
            return self.no_token();
        }
        match parse_number(bytes) {
            Some(value) => Ok(Token::Number {
                value,
                digits: bytes,
                at,
            }),
            None => Ok(Token::Word { bytes, at }),
        }
    }

    // Where no token begins here: the line's end, or a byte that is not allowed.
    fn no_token(&self) -> Result<Token<'a>, Fault>
        ensures { meant result ≡ no_token self.now.text.now self.now.at (rest_of self.now) }
    {
        let at = self.at;
        match self.text.get(at) {
            None | Some(b'\n') => Ok(Token::End { at }),
            Some(_) => Err(self.fault(Refusal::ByteNotAllowed, at)),
        }
    }
}
