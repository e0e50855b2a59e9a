//! A line in its usual spelling, read in one pass.

ghost use Rattle.std.specs.Prelude.{◌≡◌, ◌≤◌, ◌+◌, ◌<◌, [], ◌∷◌, IfSome, length};
ghost use Rattle.schedule_log.specs.Spelled.{Begins, BeginsWithChild, BeginsWithDigit, BeginsWithLine, BeginsWithNumber};

use crate::of_ddm_types::{BusNo, ChildNo, HartNo, Turn};

/// So many bytes are looked at where a line is read in its one spelling: the longest line has as many.
pub(crate) const SPELLED_BYTES: usize = 16;

// What is behind a byte.
#[inline(always)]
fn behind(text: &[u8], byte: u8) -> Option<&[u8]>
    requires { 0 < length text.now }
    ensures begins { IfSome result (λ rest. Begins text.now (byte ∷ []) rest.now) }
    ensures long { IfSome result (λ rest. length text.now ≤ length rest.now + 1) }
{
    if text[0] != byte {
        None
    } else {
        Some(&text[1..])
    }
}

// A digit, and what is behind it.
#[inline(always)]
fn digit(text: &[u8]) -> Option<(u32, &[u8])>
    requires { 0 < length text.now }
    ensures begins { IfSome result (λ r. BeginsWithDigit text.now r.0 r.1.now) }
    ensures long { IfSome result (λ r. length text.now ≤ length r.1.now + 1) }
{
    if text[0] < b'0' || b'9' < text[0] {
        None
    } else {
        Some((u32::from(text[0] - b'0'), &text[1..]))
    }
}

// A number of at most three digits, and what is behind it.
#[inline(always)]
fn number(text: &[u8]) -> Option<(u32, &[u8])>
    requires { 3 ≤ length text.now }
    ensures begins { IfSome result (λ r. BeginsWithNumber text.now r.0 r.1.now) }
    ensures long { IfSome result (λ r. length text.now ≤ length r.1.now + 3) }
{
    let (first, rest) = digit(text)?;
    if first == 0 {
        return Some((first, rest));
    }
    let Some((second, more)) = digit(rest) else {
        return Some((first, rest));
    };
    match digit(more) {
        None => Some((first * 10 + second, more)),
        Some((third, last)) => Some(((first * 10 + second) * 10 + third, last)),
    }
}

// The line of a hart's turn.
#[inline]
fn hart_line(text: &[u8]) -> Option<(Turn, &[u8])>
    requires { SPELLED_BYTES ≤ length text.now }
    ensures { IfSome result (λ r. BeginsWithLine text.now r.0 r.1.now) }
{
    let mark = behind(text, b'h')?;
    let front = behind(mark, b' ')?;
    let (hart, space) = number(front)?;
    let second = behind(space, b' ')?;
    let (victim, last) = number(second)?;
    let end = behind(last, b'\n')?;
    if 255 < victim {
        return None;
    }
    let turn = Turn::Hart {
        hart: HartNo(hart),
        victim: victim as u8,
    };
    Some((turn, end))
}

// A letter, a space and the number of a child, and what is behind.
#[inline(always)]
fn child(text: &[u8], letter: u8) -> Option<(u32, &[u8])>
    requires { 5 ≤ length text.now }
    ensures begins { IfSome result (λ r. BeginsWithChild text.now letter r.0 r.1.now) }
    ensures long { IfSome result (λ r. length text.now ≤ length r.1.now + 5) }
{
    let space = behind(text, letter)?;
    let last = behind(space, b' ')?;
    let (child, rest) = number(last)?;
    Some((child, rest))
}

// The line of a bus's turn.
#[inline]
fn bus_line(text: &[u8]) -> Option<(Turn, &[u8])>
    requires { SPELLED_BYTES ≤ length text.now }
    ensures { IfSome result (λ r. BeginsWithLine text.now r.0 r.1.now) }
{
    let mark = behind(text, b'g')?;
    let front = behind(mark, b' ')?;
    let (number_of_bus, space) = number(front)?;
    let bus = BusNo(number_of_bus);
    let kind = behind(space, b' ')?;
    if let Some(last) = behind(kind, b'd') {
        let end = behind(last, b'\n')?;
        Some((Turn::Down { bus }, end))
    } else if let Some((number_of_child, last)) = child(kind, b'q') {
        let end = behind(last, b'\n')?;
        let child = ChildNo(number_of_child);
        Some((Turn::Request { bus, child }, end))
    } else if let Some((number_of_child, last)) = child(kind, b'r') {
        let end = behind(last, b'\n')?;
        let child = ChildNo(number_of_child);
        Some((Turn::Reply { bus, child }, end))
    } else {
        let (number_of_child, gap) = child(kind, b'l')?;
        let fourth = behind(gap, b' ')?;
        let (choice, last) = number(fourth)?;
        let end = behind(last, b'\n')?;
        if 255 < choice {
            return None;
        }
        let child = ChildNo(number_of_child);
        let choice = choice as u8;
        Some((Turn::Leave { bus, child, choice }, end))
    }
}

/// The line of a turn with which a text begins, in its one spelling, and what is behind it. Its numbers have at most three digits,
/// and `None` says nothing.
#[inline]
pub(crate) fn spelled_line(text: &[u8]) -> Option<(Turn, &[u8])>
    requires { SPELLED_BYTES ≤ length text.now }
    ensures { IfSome result (λ r. BeginsWithLine text.now r.0 r.1.now) }
{
    if text[0] == b'g' {
        bus_line(text)
    } else {
        hart_line(text)
    }
}
