//! The words of a line.

ghost use Rattle.std.specs.Prelude.{◌≡◌, ◌≤◌, ◌<◌, ◌+◌, [], ◌∷◌, ◌||◌, ◌&&◌, true, drop, if◌then◌else◌, is_some};
ghost use Rattle.std.specs.Prelude.{length, MatchOption, nat_eq, nat_le, not, option_map, position, slice_index};
ghost use Rattle.std.specs.Prelude.{take};
ghost use Rattle.std.specs.List.{position_or_len};
ghost use Rattle.witness_check.specs.DdmText.Numbers.{is_digit};
ghost use Rattle.text_model.specs.Schedule.{pieces_at, place_in};
ghost use Rattle.witness_check.specs.Lines.{key_in, numbers_in};

use crate::of_ddm_text::read_decimal;
use crate::places::{place_near, place_of};

/// The first word of a text and what is behind its space, where there is a space.
pub(crate) fn cut_word(text: &[u8]) -> Option<(&[u8], &[u8])>
    ensures { MatchOption result (pieces_at 32 text.now ≡ text.now ∷ [])
        (λ cut. pieces_at 32 text.now ≡ cut.0.now ∷ pieces_at 32 cut.1.now) }
{
    match place_near(b' ', text) {
        None => None,
        Some(end) => Some((&text[..end], &text[end + 1..])),
    }
}

fn is_digit(byte: u8) -> bool
    ensures { result ≡ is_digit byte }
{
    b'0' <= byte && byte <= b'9'
}

// The number of a hart, or of a key, that a word is.
#[inline(never)]
fn long_number(word: &[u8]) -> Option<u32>
    ensures { result ≡ place_in word.now }
{
    match read_decimal(word, 4_294_967_295) {
        Ok(n) => Some(n as u32),
        Err(_) => None,
    }
}

/// The number of a hart, or of a key, that a word is. Most are of one digit, and read at once.
pub(crate) fn number(word: &[u8]) -> Option<u32>
    ensures { result ≡ place_in word.now }
{
    if word.len() != 1 {
        return long_number(word);
    }
    if is_digit(word[0]) {
        return Some(u32::from(word[0] - b'0'));
    }
    long_number(word)
}

fn first_other(text: &[u8]) -> Option<usize>
    ensures { result ≡ position (λ byte. not (is_digit byte)) text.now }
{
    text.iter().position(|byte| !is_digit(*byte))
}

// How many digits a text begins with.
fn digits_in_front(text: &[u8]) -> usize
    ensures { result ≡ position_or_len (λ byte. not (is_digit byte)) text.now }
{
    match first_other(text) {
        None => text.len(),
        Some(place) => place,
    }
}

// Whether so many digits are a number that isn't too large whichever they are, so that it need not be computed.
fn is_short(text: &[u8], digits: usize) -> bool
    requires { digits ≤ length text.now }
    ensures { result ≡ (nat_eq digits 1 || nat_le 2 digits && nat_le digits 9 && not (nat_eq (slice_index text.now 0) 48)) }
{
    digits == 1 || 2 <= digits && digits <= 9 && text[0] != b'0'
}

// Whether the text or a full stop ends what is before a place.
fn is_stop(text: &[u8], place: usize) -> bool
    requires { place ≤ length text.now }
    ensures { result ≡ (nat_eq place (length text.now) || nat_eq (slice_index text.now place) 46) }
{
    place == text.len() || text[place] == b'.'
}

// The place of the first full stop, or the end.
fn stop_of(text: &[u8]) -> usize
    ensures within { result ≤ length text.now }
    ensures pieces { pieces_at 46 text.now
        ≡ take result text.now
        ∷ (if nat_eq result (length text.now) then [] else pieces_at 46 (drop (result + 1) text.now)) }
{
    match place_of(b'.', text) {
        None => text.len(),
        Some(end) => end,
    }
}

// The end of the first of some numbers that are joined by full stops, if it is a number.
#[inline(never)]
fn long_number_end(text: &[u8]) -> Option<usize>
    ensures { MatchOption result (numbers_in (pieces_at 46 text.now) ≡ None)
        (λ end. (end ≤ length text.now) × (is_some (place_in (take end text.now)) ≡ true)
        × (pieces_at 46 text.now
        ≡ take end text.now
        ∷ (if nat_eq end (length text.now) then [] else pieces_at 46 (drop (end + 1) text.now)))) }
{
    let end = stop_of(text);
    match number(&text[..end]) {
        None => None,
        Some(_) => Some(end),
    }
}

// The same, and a short number isn't computed.
fn number_end(text: &[u8]) -> Option<usize>
    ensures { MatchOption result (numbers_in (pieces_at 46 text.now) ≡ None)
        (λ end. (end ≤ length text.now) × (is_some (place_in (take end text.now)) ≡ true)
        × (pieces_at 46 text.now
        ≡ take end text.now
        ∷ (if nat_eq end (length text.now) then [] else pieces_at 46 (drop (end + 1) text.now)))) }
{
    let end = digits_in_front(text);
    if !is_short(text, end) {
        return long_number_end(text);
    }
    if is_stop(text, end) {
        return Some(end);
    }
    long_number_end(text)
}

// How many numbers a word has, joined by full stops, if it has nothing else.
fn count_numbers(word: &[u8]) -> Option<usize>
    ensures { result ≡ option_map (λ numbers. length numbers) (numbers_in (pieces_at 46 word.now)) }
{
    let mut count = 0;
    let mut from = 0;
    'numbers: loop {
        let rest = &word[from..];
        let Some(end) = number_end(rest) else {
            return None;
        };
        if end == rest.len() {
            return Some(count + 1);
        }
        count += 1;
        from += end + 1;
    }
}

/// Whether a word is a key of one to four levels.
#[tactic(auto, unfolding(crate::specs::Lines::key_in))]
pub(crate) fn is_key(word: &[u8]) -> bool
    ensures { result ≡ is_some (key_in word.now) }
{
    match count_numbers(word) {
        None => false,
        Some(count) => count == 3 || count == 5 || count == 7 || count == 9,
    }
}
