// A page: lent memory that is written on from its front.
ghost use Rattle.std.specs.Prelude.{◌≡◌, [], ◌∷◌, decimal, set};
ghost use Rattle.writing.specs.Pages.{on, Puts};
ghost use Rattle.writing.specs.Writes.{spaced};

// The digits of the largest count, 2 ^ 64 - 1.
const MOST_DIGITS: usize = 20;

// The memory, and how many bytes came so far: lent memory with a count beside it, since writing takes no heap. What comes past the memory's end is counted and not kept, so a page of no memory only measures.
#[derive(Drop)]
pub struct Page<'a> {
    out: &'a mut [u8],
    at: usize,
}

// Keeps a byte at a place, where the memory goes so far, and answers the next place. The place goes by value, so that a row of bytes stores it once.
fn keep(out: &mut [u8], at: usize, b: u8) -> usize
    ensures next { result ≡ on at }
    ensures kept { out.new ≡ set out.old at b }
{
    if at < out.len() {
        out[at] = b;
    }
    at.saturating_add(1)
}

impl<'a> Page<'a> {
    pub fn new(out: &'a mut [u8]) -> Page<'a>
        ensures at { result.at ≡ 0 }
        ensures out { result.out.now ≡ out.old }
        ensures lends { result.out.ghost_name ≡ out.entry.ghost_name }
    {
        Page { out, at: 0 }
    }

    // How many bytes came so far.
    pub fn len(&self) -> usize
        ensures { result ≡ self.now.at }
    {
        self.at
    }

    pub fn put_byte(&mut self, b: u8)
        ensures { Puts self.old (b ∷ []) self.new }
    {
        let Page { out, at } = self;
        *at = keep(out, *at, b);
    }

    // A row of bytes.
    pub fn put_bytes(&mut self, bytes: &[u8])
        ensures { Puts self.old bytes.now self.new }
    {
        let Page { out, at } = self;
        let mut next = *at;
        for b in bytes {
            next = keep(out, next, *b);
        }
        *at = next;
    }

    // A number's digits, not by `write!`: that promises its bytes only where it answers Ok, and measuring cannot fail.
    // The last digit is found first, so they fill an array from its back and go on the page as one row.
    pub fn put_number(&mut self, n: usize)
        ensures { Puts self.old (decimal n) self.new }
    {
        let mut digits = [b'0'; MOST_DIGITS];
        let mut first = MOST_DIGITS - 1;
        let mut rest = n;
        while rest >= 10 {
            digits[first] = b'0' + (rest % 10) as u8;
            first -= 1;
            rest /= 10;
        }
        digits[first] = b'0' + rest as u8;
        self.put_bytes(&digits[first..]);
    }

    // A number after a space.
    #[tactic(auto, using(crate::proofs::Pages::puts_join))]
    pub(crate) fn put_spaced(&mut self, n: usize)
        ensures { Puts self.old (32 ∷ decimal n) self.new }
    {
        self.put_byte(b' ');
        self.put_number(n);
    }

    // Numbers, each after a space.
    pub(crate) fn put_all(&mut self, ns: &[u32])
        ensures { Puts self.old (spaced ns.now) self.new }
    {
        for n in ns {
            self.put_spaced(*n as usize);
        }
    }
}
