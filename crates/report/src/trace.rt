//! The lines of a trace.

ghost use Rattle.std.specs.Prelude.{◌≡◌, [], ◌∷◌, ◌++◌, OnOk, codes, decimal, length};
ghost use Rattle.report.specs.DdmText.Adds.{Adds};
ghost use Rattle.text_model.specs.Schedule.{turn_text};
ghost use Rattle.text_model.specs.Trace.{trace_from, trace_line};
ghost use Rattle.report.specs.Room.{UsesRoom};

use crate::answers::push_answer;
use crate::buffers::TextBuffer;
use crate::digits::{byte_digits, push_decimal, push_spaced_byte};
use crate::line::Line;
use crate::numbers::{push_bus, push_child, push_hart};
use crate::of_ddm_types::{BusNo, ChildNo, HartNo, NoMemory, Turn, TurnAnswer};
use crate::pieces::push_bytes;

// Puts the turn of a hart at the end. Where the hart's number has one digit, as mostly, its bytes are put at once.
fn push_hart_turn<W: TextBuffer>(out: &mut W, hart: HartNo, victim: u8) -> Result<(), NoMemory>
    ensures text { OnOk result (Adds (W.text out.old) (W.text out.new)
        (codes "h " ++ decimal hart ++ codes " " ++ decimal victim)) }
    ensures room { UsesRoom 26 (W.room out.old) (W.room out.new) result }
{
    if hart.0 >= 10 {
        push_bytes(out, b"h ")?;
        push_hart(out, hart)?;
        return push_spaced_byte(out, victim);
    }
    let digit = b'0' + hart.0 as u8;
    let [hundreds, tens, ones] = byte_digits(victim);
    if victim < 10 {
        out.put(&[b'h', b' ', digit, b' ', ones])
    } else if victim < 100 {
        out.put(&[b'h', b' ', digit, b' ', tens, ones])
    } else {
        out.put(&[b'h', b' ', digit, b' ', hundreds, tens, ones])
    }
}

// Puts at the end the turn of a bus that takes a first entry.
#[inline(always)]
fn push_down_turn<W: TextBuffer>(out: &mut W, bus: BusNo) -> Result<(), NoMemory>
    ensures text { OnOk result (Adds (W.text out.old) (W.text out.new)
        (codes "g " ++ decimal bus ++ codes " d")) }
    ensures room { UsesRoom 24 (W.room out.old) (W.room out.new) result }
{
    if bus.0 < 10 {
        return out.put(&[b'g', b' ', b'0' + bus.0 as u8, b' ', b'd']);
    }
    push_bytes(out, b"g ")?;
    push_bus(out, bus)?;
    push_bytes(out, b" d")
}

// Puts at the end a bus, the letter of what it does there, and its child. Numbers of one digit, as mostly, are put at once.
fn push_child_turn<W: TextBuffer>(
    out: &mut W,
    bus: BusNo,
    letter: u8,
    child: ChildNo,
) -> Result<(), NoMemory>
    ensures text { OnOk result (Adds (W.text out.old) (W.text out.new)
        (codes "g " ++ decimal bus ++ (32 ∷ letter ∷ 32 ∷ []) ++ decimal child)) }
    ensures room { UsesRoom 45 (W.room out.old) (W.room out.new) result }
{
    if bus.0 < 10 && child.0 < 10 {
        let from = b'0' + bus.0 as u8;
        let to = b'0' + child.0 as u8;
        return out.put(&[b'g', b' ', from, b' ', letter, b' ', to]);
    }
    push_bytes(out, b"g ")?;
    push_bus(out, bus)?;
    push_bytes(out, &[b' ', letter, b' '])?;
    push_child(out, child)
}

/// Puts a turn at the end, as a schedule has it.
#[tactic(auto, unfolding(text_model::specs::Schedule::turn_text))]
pub fn push_turn<W: TextBuffer>(out: &mut W, turn: Turn) -> Result<(), NoMemory>
    ensures text { OnOk result (Adds (W.text out.old) (W.text out.new) (turn_text turn)) }
    ensures room { UsesRoom 66 (W.room out.old) (W.room out.new) result }
{
    match turn {
        Turn::Hart { hart, victim } => push_hart_turn(out, hart, victim),
        Turn::Down { bus } => push_down_turn(out, bus),
        Turn::Request { bus, child } => push_child_turn(out, bus, b'q', child),
        Turn::Reply { bus, child } => push_child_turn(out, bus, b'r', child),
        Turn::Leave { bus, child, choice } => {
            push_child_turn(out, bus, b'l', child)?;
            push_spaced_byte(out, choice)
        }
    }
}

/// Puts at the end the line of a turn, counted from 0, and of its answer. Bytes that are written in place are put
/// with fewer tests than a text.
pub fn push_trace_line<W: TextBuffer>(
    out: &mut W,
    number: u64,
    turn: Turn,
    answer: TurnAnswer,
) -> Result<(), NoMemory>
    ensures text { OnOk result (Adds (W.text out.old) (W.text out.new) (trace_line number turn answer)) }
    ensures room { UsesRoom 191 (W.room out.old) (W.room out.new) result }
{
    push_bytes(out, &[b't', b' '])?;
    push_decimal(out, number)?;
    push_bytes(out, &[b' '])?;
    push_turn(out, turn)?;
    push_bytes(out, &[b' '])?;
    push_answer(out, answer)?;
    push_bytes(out, &[b'\n'])?;
    Ok(())
}

/// Puts behind a text a line for each turn with its answer. The first of them is counted as `first`.
pub fn push_trace(
    text: &mut Vec<u8>,
    first: u32,
    turns: &[Turn],
    answers: &[TurnAnswer],
) -> Result<(), NoMemory>
    requires { length turns.now ≡ length answers.now }
    ensures { OnOk result (text.new.items ≡ text.old.items ++ trace_from first turns.now answers.now) }
{
    let mut line = Line::new();
    for at in 0..turns.len() {
        line.clear();
        let number = u64::from(first) + at as u64;
        let Ok(()) = push_trace_line(&mut line, number, turns[at], answers[at]) else {
            unreachable!();
        };
        text.extend_from_slice(line.as_slice())?;
    }
    Ok(())
}
