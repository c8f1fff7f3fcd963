ghost use Rattle.std.specs.Prelude.{◌≡◌};
ghost use Rattle.tokens.specs.Numbers.{value_of};

// A number has at most this many digits.
const MOST_DIGITS: usize = 10;

// The number that a token writes, if it is one.
pub(crate) fn parse_number(bytes: &[u8]) -> Option<u32>
    ensures { result ≡ value_of bytes.now }
{
    if bytes.is_empty() || bytes.len() > MOST_DIGITS {
        return None;
    }
    let mut n: u64 = 0;
    // No `try_fold`, which is no plainer: it owes the bound of the product for each turn, by three proofs by hand; here the loop's invariant gives it.
    for b in bytes {
        if !b.is_ascii_digit() {
            return None;
        }
        n = n * 10 + u64::from(*b - b'0');
    }
    u32::try_from(n).ok()
}
