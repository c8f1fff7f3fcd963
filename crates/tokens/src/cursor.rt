ghost use Rattle.std.specs.Prelude.{◌≡◌, ◌≤◌, length};
ghost use Rattle.tokens.specs.Places.{line_of};

// A place in a text, with its line.
#[derive(Clone, Copy)]
pub struct Cursor<'a> {
    pub text: &'a [u8],
    pub at: usize,
    pub line: usize,
    ghost within: { at ≤ length text.now },
    ghost short: { length text.now ≤ 67108864 },
    ghost counted: { line ≡ line_of text.now at },
}
