//! Decimal and hexadecimal digits, put several at a time.

ghost use Rattle.std.specs.Prelude.{◌≡◌, ◌+◌, ◌/◌, ◌%◌, ◌<◌, ◌≤◌, [], ◌∷◌, ◌++◌, OnOk, codes, decimal, false};
ghost use Rattle.report.specs.DdmText.Adds.{Adds};
ghost use Rattle.report.specs.DdmText.Hex.{hex2, hex8};
ghost use Rattle.report.specs.Room.{UsesRoom};

use crate::buffers::TextBuffer;
use crate::of_ddm_text::{MOST_DIGITS, write_digits};
use crate::of_ddm_types::NoMemory;

// The two digits of each byte, one behind the other.
static PAIRS: [u8; 512] = *b"000102030405060708090a0b0c0d0e0f\
    101112131415161718191a1b1c1d1e1f\
    202122232425262728292a2b2c2d2e2f\
    303132333435363738393a3b3c3d3e3f\
    404142434445464748494a4b4c4d4e4f\
    505152535455565758595a5b5c5d5e5f\
    606162636465666768696a6b6c6d6e6f\
    707172737475767778797a7b7c7d7e7f\
    808182838485868788898a8b8c8d8e8f\
    909192939495969798999a9b9c9d9e9f\
    a0a1a2a3a4a5a6a7a8a9aaabacadaeaf\
    b0b1b2b3b4b5b6b7b8b9babbbcbdbebf\
    c0c1c2c3c4c5c6c7c8c9cacbcccdcecf\
    d0d1d2d3d4d5d6d7d8d9dadbdcdddedf\
    e0e1e2e3e4e5e6e7e8e9eaebecedeeef\
    f0f1f2f3f4f5f6f7f8f9fafbfcfdfeff";

// The two decimal digits of each number below a hundred, one behind the other.
static TENS: [u8; 200] = *b"0001020304050607080910111213141516171819\
    2021222324252627282930313233343536373839\
    4041424344454647484950515253545556575859\
    6061626364656667686970717273747576777879\
    8081828384858687888990919293949596979899";

#[inline(always)]
fn two_digits(n: u32) -> [u8; 2]
    requires { n < 100 }
    ensures { result ≡ (48 + n / 10) ∷ (48 + n % 10) ∷ [] }
{
    let at = 2 * n as usize;
    [TENS[at], TENS[at + 1]]
}

// The last four decimal digits of a number.
#[inline(always)]
fn last_digits(n: u32) -> [u8; 4]
    ensures { result ≡ (48 + n / 1000 % 10) ∷ (48 + n / 100 % 10) ∷ (48 + n / 10 % 10) ∷ (48 + n % 10) ∷ [] }
{
    let last = n % 10_000;
    let [thousands, hundreds] = two_digits(last / 100);
    let [tens, ones] = two_digits(last % 100);
    [thousands, hundreds, tens, ones]
}

/// The last three decimal digits of a byte.
#[inline(always)]
pub fn byte_digits(n: u8) -> [u8; 3]
    ensures { result ≡ (48 + n / 100 % 10) ∷ (48 + n / 10 % 10) ∷ (48 + n % 10) ∷ [] }
{
    let [tens, ones] = two_digits(u32::from(n) % 100);
    [b'0' + n / 100, tens, ones]
}

/// Puts a space and the decimal digits of a byte at the end.
pub fn push_spaced_byte<W: TextBuffer>(out: &mut W, n: u8) -> Result<(), NoMemory>
    ensures text { OnOk result (Adds (W.text out.old) (W.text out.new) (codes " " ++ decimal n)) }
    ensures room { UsesRoom 4 (W.room out.old) (W.room out.new) result }
{
    let [hundreds, tens, ones] = byte_digits(n);
    if n < 10 {
        out.put(&[b' ', ones])
    } else if n < 100 {
        out.put(&[b' ', tens, ones])
    } else {
        out.put(&[b' ', hundreds, tens, ones])
    }
}

// Puts the decimal digits of a number of at most four at the end.
#[inline(always)]
fn push_short<W: TextBuffer>(out: &mut W, n: u32) -> Result<(), NoMemory>
    requires { n < 10000 }
    ensures text { OnOk result (Adds (W.text out.old) (W.text out.new) (decimal n)) }
    ensures room { UsesRoom 4 (W.room out.old) (W.room out.new) result }
{
    if n < 10 {
        return out.put(&[b'0' + n as u8]);
    }
    let [thousands, hundreds, tens, ones] = last_digits(n);
    if n < 100 {
        out.put(&[tens, ones])
    } else if n < 1_000 {
        out.put(&[hundreds, tens, ones])
    } else {
        out.put(&[thousands, hundreds, tens, ones])
    }
}

// Puts the decimal digits of a number of five to eight at the end, at once.
fn push_middle<W: TextBuffer>(out: &mut W, n: u32) -> Result<(), NoMemory>
    requires least { 10000 ≤ n }
    requires most { n < 100000000 }
    ensures text { OnOk result (Adds (W.text out.old) (W.text out.new) (decimal n)) }
    ensures room { UsesRoom 8 (W.room out.old) (W.room out.new) result }
{
    let [a, b, c, d] = last_digits(n / 10_000);
    let [e, f, g, h] = last_digits(n);
    if n < 100_000 {
        out.put(&[d, e, f, g, h])
    } else if n < 1_000_000 {
        out.put(&[c, d, e, f, g, h])
    } else if n < 10_000_000 {
        out.put(&[b, c, d, e, f, g, h])
    } else {
        out.put(&[a, b, c, d, e, f, g, h])
    }
}

// Puts the decimal digits of any number at the end.
fn push_long<W: TextBuffer>(out: &mut W, n: u64) -> Result<(), NoMemory>
    ensures text { OnOk result (Adds (W.text out.old) (W.text out.new) (decimal n)) }
    ensures room { UsesRoom 20 (W.room out.old) (W.room out.new) result }
{
    let mut digits = [0; MOST_DIGITS];
    let at = write_digits(n, &mut digits);
    out.put(&digits[at..])
}

/// Puts the decimal digits of a number at the end.
#[inline(always)]
pub fn push_decimal<W: TextBuffer>(out: &mut W, n: u64) -> Result<(), NoMemory>
    ensures text { OnOk result (Adds (W.text out.old) (W.text out.new) (decimal n)) }
    ensures room { UsesRoom 20 (W.room out.old) (W.room out.new) result }
{
    if n < 10_000 {
        push_short(out, n as u32)
    } else if n < 100_000_000 {
        push_middle(out, n as u32)
    } else {
        push_long(out, n)
    }
}

/// The two hexadecimal digits of a number below 256.
#[inline(always)]
pub fn hex2_digits(n: u32) -> [u8; 2]
    requires { n < 256 }
    ensures { result ≡ hex2 n }
{
    let at = 2 * n as usize;
    [PAIRS[at], PAIRS[at + 1]]
}

/// The eight hexadecimal digits of a number.
#[inline(always)]
#[tactic(auto, unfolding(crate::specs::Opened::hex8))]
pub fn hex8_digits(n: u32) -> [u8; 8]
    ensures { result ≡ hex8 n }
{
    let [a, b] = hex2_digits(n / 16_777_216);
    let [c, d] = hex2_digits(n / 65_536 % 256);
    let [e, f] = hex2_digits(n / 256 % 256);
    let [g, h] = hex2_digits(n % 256);
    [a, b, c, d, e, f, g, h]
}

/// Puts two hexadecimal digits at the end.
pub fn push_hex2<W: TextBuffer>(out: &mut W, n: u8) -> Result<(), NoMemory>
    ensures text { OnOk result (Adds (W.text out.old) (W.text out.new) (hex2 n)) }
    ensures room { UsesRoom 2 (W.room out.old) (W.room out.new) result }
{
    out.put(&hex2_digits(u32::from(n)))
}

/// Puts eight hexadecimal digits at the end.
pub fn push_hex8<W: TextBuffer>(out: &mut W, n: u32) -> Result<(), NoMemory>
    ensures text { OnOk result (Adds (W.text out.old) (W.text out.new) (hex8 n)) }
    ensures room { UsesRoom 8 (W.room out.old) (W.room out.new) result }
{
    out.put(&hex8_digits(n))
}

/// Puts a space and eight hexadecimal digits at the end.
pub fn push_spaced_hex8<W: TextBuffer>(out: &mut W, n: u32) -> Result<(), NoMemory>
    ensures text { OnOk result (Adds (W.text out.old) (W.text out.new) (codes " " ++ hex8 n)) }
    ensures room { UsesRoom 9 (W.room out.old) (W.room out.new) result }
{
    let [a, b, c, d, e, f, g, h] = hex8_digits(n);
    out.put(&[b' ', a, b, c, d, e, f, g, h])
}

/// Puts eight hexadecimal digits between two spaces at the end.
#[inline(always)]
pub fn push_hex8_between<W: TextBuffer>(out: &mut W, n: u32) -> Result<(), NoMemory>
    ensures text { OnOk result (Adds (W.text out.old) (W.text out.new) (codes " " ++ hex8 n ++ codes " ")) }
    ensures room { UsesRoom 10 (W.room out.old) (W.room out.new) result }
{
    let [a, b, c, d, e, f, g, h] = hex8_digits(n);
    out.put(&[b' ', a, b, c, d, e, f, g, h, b' '])
}
