//! Hexadecimal digits are read.

ghost use Rattle.std.specs.Prelude.{◌≡◌, ◌≤◌, [], ◌∷◌, MatchOption, unwrap_or};
ghost use Rattle.witness_check.specs.Lines.{hex2_in, hex4_in, hex8_in, hex_digit};

/// More than any number of eight digits: what a byte counts for that is no digit. A number with such a byte in it is no less, so
/// that one look at the end is enough.
const NONE: u64 = 4_294_967_296;

/// What each byte counts for as a digit.
#[rattlefmt::skip]
static DIGITS: [u64; 256] = [
    NONE, NONE, NONE, NONE, NONE, NONE, NONE, NONE, NONE, NONE, NONE, NONE, NONE, NONE, NONE, NONE,
    NONE, NONE, NONE, NONE, NONE, NONE, NONE, NONE, NONE, NONE, NONE, NONE, NONE, NONE, NONE, NONE,
    NONE, NONE, NONE, NONE, NONE, NONE, NONE, NONE, NONE, NONE, NONE, NONE, NONE, NONE, NONE, NONE,
    0, 1, 2, 3, 4, 5, 6, 7, 8, 9, NONE, NONE, NONE, NONE, NONE, NONE,
    NONE, NONE, NONE, NONE, NONE, NONE, NONE, NONE, NONE, NONE, NONE, NONE, NONE, NONE, NONE, NONE,
    NONE, NONE, NONE, NONE, NONE, NONE, NONE, NONE, NONE, NONE, NONE, NONE, NONE, NONE, NONE, NONE,
    NONE, 10, 11, 12, 13, 14, 15, NONE, NONE, NONE, NONE, NONE, NONE, NONE, NONE, NONE,
    NONE, NONE, NONE, NONE, NONE, NONE, NONE, NONE, NONE, NONE, NONE, NONE, NONE, NONE, NONE, NONE,
    NONE, NONE, NONE, NONE, NONE, NONE, NONE, NONE, NONE, NONE, NONE, NONE, NONE, NONE, NONE, NONE,
    NONE, NONE, NONE, NONE, NONE, NONE, NONE, NONE, NONE, NONE, NONE, NONE, NONE, NONE, NONE, NONE,
    NONE, NONE, NONE, NONE, NONE, NONE, NONE, NONE, NONE, NONE, NONE, NONE, NONE, NONE, NONE, NONE,
    NONE, NONE, NONE, NONE, NONE, NONE, NONE, NONE, NONE, NONE, NONE, NONE, NONE, NONE, NONE, NONE,
    NONE, NONE, NONE, NONE, NONE, NONE, NONE, NONE, NONE, NONE, NONE, NONE, NONE, NONE, NONE, NONE,
    NONE, NONE, NONE, NONE, NONE, NONE, NONE, NONE, NONE, NONE, NONE, NONE, NONE, NONE, NONE, NONE,
    NONE, NONE, NONE, NONE, NONE, NONE, NONE, NONE, NONE, NONE, NONE, NONE, NONE, NONE, NONE, NONE,
    NONE, NONE, NONE, NONE, NONE, NONE, NONE, NONE, NONE, NONE, NONE, NONE, NONE, NONE, NONE, NONE,
];

#[inline(always)]
fn digit(byte: u8) -> u64
    ensures { result ≡ unwrap_or (hex_digit byte) NONE }
{
    DIGITS[usize::from(byte)]
}

#[inline(always)]
fn two_digits(high: u8, low: u8) -> u64
    ensures value { MatchOption (hex2_in (high ∷ low ∷ [])) (NONE ≤ result) (λ n. result ≡ n) }
    ensures bound { result ≤ 73014444032 }
{
    digit(high) * 16 + digit(low)
}

#[inline(always)]
fn four_digits(a: u8, b: u8, c: u8, d: u8) -> u64
    ensures value { MatchOption (hex4_in (a ∷ b ∷ c ∷ d ∷ [])) (NONE ≤ result) (λ n. result ≡ n) }
    ensures bound { result ≤ 18764712116224 }
{
    two_digits(a, b) * 256 + two_digits(c, d)
}

/// The number that two digits are.
pub(crate) fn hex2(word: &[u8]) -> Option<u8>
    ensures { result ≡ hex2_in word.now }
{
    if word.len() != 2 {
        return None;
    }
    let n = two_digits(word[0], word[1]);
    if n < NONE { Some(n as u8) } else { None }
}

/// The number that eight digits are.
pub(crate) fn hex8(word: &[u8]) -> Option<u32>
    ensures { result ≡ hex8_in word.now }
{
    if word.len() != 8 {
        return None;
    }
    let high = four_digits(word[0], word[1], word[2], word[3]);
    let low = four_digits(word[4], word[5], word[6], word[7]);
    let n = high * 65_536 + low;
    if n < NONE { Some(n as u32) } else { None }
}
