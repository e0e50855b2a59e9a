//! The words of a line.

ghost use Rattle.std.specs.Prelude.{◌≡◌, ◌<◌, ◌≤◌, ◌+◌, [], ◌∷◌, drop, length, nat_eq, position, take};
ghost use Rattle.text_model.specs.Schedule.{choice_in, pieces_at, place_in, turn_of_five, turn_of_four, turn_of_three, turn_of_words};

use crate::of_ddm_text::read_decimal;
use crate::of_ddm_types::{BusNo, ChildNo, HartNo, Turn};

const HART: &[u8] = b"h";

const BUS: &[u8] = b"g";

const DOWN: &[u8] = b"d";

const REQUEST: &[u8] = b"q";

const REPLY: &[u8] = b"r";

const LEAVE: &[u8] = b"l";

fn space(text: &[u8]) -> Option<usize>
    ensures { result ≡ position (λ byte. nat_eq byte 32) text.now }
{
    text.iter().position(|byte| *byte == b' ')
}

// The number of bytes of the first word.
fn word_end(text: &[u8]) -> usize
    ensures within { result ≤ length text.now }
    ensures last { result ≡ length text.now → pieces_at 32 text.now ≡ text.now ∷ [] }
    ensures more { result < length text.now → pieces_at 32 text.now ≡ take result text.now ∷ pieces_at 32 (drop (result + 1) text.now) }
{
    match space(text) {
        Some(place) => place,
        None => text.len(),
    }
}

fn place(word: &[u8]) -> Option<u32>
    ensures { result ≡ place_in word.now }
{
    match read_decimal(word, 4_294_967_295) {
        Ok(n) => Some(n as u32),
        Err(_) => None,
    }
}

fn choice(word: &[u8]) -> Option<u8>
    ensures { result ≡ choice_in word.now }
{
    match read_decimal(word, 255) {
        Ok(n) => Some(n as u8),
        Err(_) => None,
    }
}

fn turn_of_three(mark: &[u8], second: &[u8], third: &[u8]) -> Option<Turn>
    ensures { result ≡ turn_of_three mark.now second.now third.now }
{
    if mark == HART {
        let hart = HartNo(place(second)?);
        let victim = choice(third)?;
        Some(Turn::Hart { hart, victim })
    } else if mark == BUS && third == DOWN {
        let bus = BusNo(place(second)?);
        Some(Turn::Down { bus })
    } else {
        None
    }
}

fn turn_of_four(mark: &[u8], bus: &[u8], kind: &[u8], child: &[u8]) -> Option<Turn>
    ensures { result ≡ turn_of_four mark.now bus.now kind.now child.now }
{
    if mark == BUS && kind == REQUEST {
        let bus = BusNo(place(bus)?);
        let child = ChildNo(place(child)?);
        Some(Turn::Request { bus, child })
    } else if mark == BUS && kind == REPLY {
        let bus = BusNo(place(bus)?);
        let child = ChildNo(place(child)?);
        Some(Turn::Reply { bus, child })
    } else {
        None
    }
}

fn turn_of_five(mark: &[u8], bus: &[u8], kind: &[u8], child: &[u8], last: &[u8]) -> Option<Turn>
    ensures { result ≡ turn_of_five mark.now bus.now kind.now child.now last.now }
{
    if mark == BUS && kind == LEAVE {
        let bus = BusNo(place(bus)?);
        let child = ChildNo(place(child)?);
        let choice = choice(last)?;
        Some(Turn::Leave { bus, child, choice })
    } else {
        None
    }
}

#[tactic(auto, unfolding(text_model::specs::Schedule::turn_of_words))]
fn turn_behind_four(mark: &[u8], bus: &[u8], kind: &[u8], child: &[u8], rest: &[u8]) -> Option<Turn>
    ensures { result ≡ turn_of_words (mark.now ∷ bus.now ∷ kind.now ∷ child.now ∷ pieces_at 32 rest.now) }
{
    if word_end(rest) == rest.len() {
        turn_of_five(mark, bus, kind, child, rest)
    } else {
        None
    }
}

#[tactic(auto, unfolding(text_model::specs::Schedule::turn_of_words))]
fn turn_behind_three(mark: &[u8], bus: &[u8], kind: &[u8], rest: &[u8]) -> Option<Turn>
    ensures { result ≡ turn_of_words (mark.now ∷ bus.now ∷ kind.now ∷ pieces_at 32 rest.now) }
{
    let end = word_end(rest);
    if end == rest.len() {
        turn_of_four(mark, bus, kind, rest)
    } else {
        turn_behind_four(mark, bus, kind, &rest[..end], &rest[end + 1..])
    }
}

#[tactic(auto, unfolding(text_model::specs::Schedule::turn_of_words))]
fn turn_behind_two(mark: &[u8], second: &[u8], rest: &[u8]) -> Option<Turn>
    ensures { result ≡ turn_of_words (mark.now ∷ second.now ∷ pieces_at 32 rest.now) }
{
    let end = word_end(rest);
    if end == rest.len() {
        turn_of_three(mark, second, rest)
    } else {
        turn_behind_three(mark, second, &rest[..end], &rest[end + 1..])
    }
}

#[tactic(auto, unfolding(text_model::specs::Schedule::turn_of_words))]
fn turn_behind_one(mark: &[u8], rest: &[u8]) -> Option<Turn>
    ensures { result ≡ turn_of_words (mark.now ∷ pieces_at 32 rest.now) }
{
    let end = word_end(rest);
    if end == rest.len() {
        None
    } else {
        turn_behind_two(mark, &rest[..end], &rest[end + 1..])
    }
}

/// The turn that a line is, if its words are one.
#[tactic(auto, unfolding(text_model::specs::Schedule::turn_of_words))]
pub(crate) fn turn_of_line(line: &[u8]) -> Option<Turn>
    ensures { result ≡ turn_of_words (pieces_at 32 line.now) }
{
    let end = word_end(line);
    if end == line.len() {
        None
    } else {
        turn_behind_one(&line[..end], &line[end + 1..])
    }
}
