//! The first place of a byte in a text, looked for among many bytes at once.
ghost use Rattle.std.specs.Prelude.{◌≡◌, ◌≤◌, ◌+◌, drop, length, nat_eq, option_map, position, take};

use std::simd::prelude::*;

// The first place of a byte in the first 8 bytes of a text, which are compared at once; below, in the first 16 and 32.
#[inline(always)]
fn place_in_8(separator: u8, text: &[u8]) -> Option<usize>
    requires { 8 ≤ length text.now }
    ensures { result ≡ position (λ byte. nat_eq byte separator) (take 8 text.now) }
{
    let same = u8x8::from_slice(text).simd_eq(u8x8::splat(separator));
    let marks = same.to_bitmask();
    if marks == 0 {
        None
    } else {
        Some(marks.trailing_zeros() as usize)
    }
}

#[inline(always)]
fn place_in_16(separator: u8, text: &[u8]) -> Option<usize>
    requires { 16 ≤ length text.now }
    ensures { result ≡ position (λ byte. nat_eq byte separator) (take 16 text.now) }
{
    let same = u8x16::from_slice(text).simd_eq(u8x16::splat(separator));
    let marks = same.to_bitmask();
    if marks == 0 {
        None
    } else {
        Some(marks.trailing_zeros() as usize)
    }
}

#[inline(always)]
fn place_in_32(separator: u8, text: &[u8]) -> Option<usize>
    requires { 32 ≤ length text.now }
    ensures { result ≡ position (λ byte. nat_eq byte separator) (take 32 text.now) }
{
    let same = u8x32::from_slice(text).simd_eq(u8x32::splat(separator));
    let marks = same.to_bitmask();
    if marks == 0 {
        None
    } else {
        Some(marks.trailing_zeros() as usize)
    }
}

// The same in the whole text, byte by byte.
#[inline(always)]
fn place_by_bytes(separator: u8, text: &[u8]) -> Option<usize>
    ensures { result ≡ position (λ byte. nat_eq byte separator) text.now }
{
    text.iter().position(|byte| *byte == separator)
}

// The first place from a place on.
#[inline(never)]
fn place_behind(separator: u8, text: &[u8], from: usize) -> Option<usize>
    requires { from ≤ length text.now }
    ensures { result ≡ option_map (λ place. from + place) (position (λ byte. nat_eq byte separator) (drop from text.now)) }
{
    match place_by_bytes(separator, &text[from..]) {
        None => None,
        Some(place) => Some(from + place),
    }
}

/// The first place of a byte that is likely to be far.
pub(crate) fn place_of(separator: u8, text: &[u8]) -> Option<usize>
    ensures { result ≡ position (λ byte. nat_eq byte separator) text.now }
{
    let mut from = 0;
    'blocks: while text.len() - from >= 32 {
        if let Some(place) = place_in_32(separator, &text[from..]) {
            return Some(from + place);
        }
        from += 32;
    }
    place_behind(separator, text, from)
}

/// The same of a byte that is likely to be among the next ones.
pub(crate) fn place_near(separator: u8, text: &[u8]) -> Option<usize>
    ensures { result ≡ position (λ byte. nat_eq byte separator) text.now }
{
    if text.len() >= 16 {
        match place_in_16(separator, text) {
            None => place_behind(separator, text, 16),
            Some(place) => Some(place),
        }
    } else if text.len() >= 8 {
        match place_in_8(separator, text) {
            None => place_behind(separator, text, 8),
            Some(place) => Some(place),
        }
    } else {
        place_behind(separator, text, 0)
    }
}
