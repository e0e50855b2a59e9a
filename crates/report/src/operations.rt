//! The line of an operation.

ghost use Rattle.std.specs.Prelude.{◌*◌, ◌≤◌, ◌++◌, OnOk, codes, decimal, take};
ghost use Rattle.report.specs.DdmText.Adds.{Adds};
ghost use Rattle.report.specs.DdmText.Hex.{hex8};
ghost use Rattle.text_model.specs.Words.{effect_text};
ghost use Rattle.text_model.specs.Report.{key_text, level_numbers, number_stops, op_line};
ghost use Rattle.report.specs.Room.{UsesRoom};

use crate::buffers::TextBuffer;
use crate::digits::{hex8_digits, push_hex8_between};
use crate::effects::push_effect;
use crate::numbers::push_hart;
use crate::of_ddm_types::{Effect, HartNo, Key, LEVELS, NoMemory, Op};
use crate::pieces::{push_bytes, push_number};

// The two numbers of a level, each with a full stop behind it. A child of one digit, as mostly, is put with both stops.
fn push_long_level<W: TextBuffer>(out: &mut W, stamp: u32, child: u32) -> Result<(), NoMemory>
    ensures text { OnOk result (Adds (W.text out.old) (W.text out.new)
        (decimal stamp ++ codes "." ++ decimal child ++ codes ".")) }
    ensures room { UsesRoom 42 (W.room out.old) (W.room out.new) result }
{
    push_number(out, stamp)?;
    if child < 10 {
        out.put(&[b'.', b'0' + child as u8, b'.'])?;
        return Ok(());
    }
    push_bytes(out, b".")?;
    push_number(out, child)?;
    push_bytes(out, b".")?;
    Ok(())
}

// The same. Two numbers of one digit, as where nothing was granted, are put at once.
#[inline(always)]
fn push_level<W: TextBuffer>(out: &mut W, stamp: u32, child: u32) -> Result<(), NoMemory>
    ensures text { OnOk result (Adds (W.text out.old) (W.text out.new)
        (decimal stamp ++ codes "." ++ decimal child ++ codes ".")) }
    ensures room { UsesRoom 42 (W.room out.old) (W.room out.new) result }
{
    if stamp < 10 && child < 10 {
        return out.put(&[b'0' + stamp as u8, b'.', b'0' + child as u8, b'.']);
    }
    push_long_level(out, stamp, child)
}

// The numbers of a key but the last, each with a full stop behind it: two for each level of the tree.
fn push_levels<W: TextBuffer>(out: &mut W, depth: u32, key: Key) -> Result<(), NoMemory>
    requires { depth ≤ LEVELS }
    ensures text { OnOk result (Adds (W.text out.old) (W.text out.new)
        (number_stops (take (2 * depth) (level_numbers key)))) }
    ensures room { UsesRoom 168 (W.room out.old) (W.room out.new) result }
{
    if depth == 0 {
        return Ok(());
    }
    push_level(out, key.s0, key.c0)?;
    if depth == 1 {
        return Ok(());
    }
    push_level(out, key.s1, key.c1)?;
    if depth == 2 {
        return Ok(());
    }
    push_level(out, key.s2, key.c2)?;
    if depth == 3 {
        return Ok(());
    }
    push_level(out, key.s3, key.c3)?;
    Ok(())
}

/// Puts at the end the numbers of a key that a tree of this depth has.
#[tactic(auto, unfolding(text_model::specs::Report::key_text))]
pub fn push_key<W: TextBuffer>(out: &mut W, depth: u32, key: Key) -> Result<(), NoMemory>
    requires { depth ≤ LEVELS }
    ensures text { OnOk result (Adds (W.text out.old) (W.text out.new) (key_text depth key)) }
    ensures room { UsesRoom 188 (W.room out.old) (W.room out.new) result }
{
    push_levels(out, depth, key)?;
    push_number(out, key.i)
}

// The front of an operation's line: the word, the hart and a space. A hart of one digit, as mostly, is put with them.
#[inline(always)]
fn push_op_front<W: TextBuffer>(out: &mut W, hart: HartNo) -> Result<(), NoMemory>
    ensures text { OnOk result (Adds (W.text out.old) (W.text out.new) (codes "op " ++ decimal hart ++ codes " ")) }
    ensures room { UsesRoom 24 (W.room out.old) (W.room out.new) result }
{
    if hart.0 < 10 {
        return out.put(&[b'o', b'p', b' ', b'0' + hart.0 as u8, b' ']);
    }
    push_bytes(out, b"op ")?;
    push_hart(out, hart)?;
    push_bytes(out, b" ")
}

// The end of an operation's line: where its instruction stood, what that did and the line feed. For one that did nothing
// to memory, as most, all is put at once.
#[inline(always)]
#[tactic(auto, unfolding(text_model::specs::Words::effect_text))]
fn push_op_end<W: TextBuffer>(out: &mut W, pc: u32, effect: Effect) -> Result<(), NoMemory>
    ensures text { OnOk result (Adds (W.text out.old) (W.text out.new)
        (codes " " ++ hex8 pc ++ codes " " ++ effect_text effect ++ codes "\n")) }
    ensures room { UsesRoom 43 (W.room out.old) (W.room out.new) result }
{
    if let Effect::Plain = effect {
        let [a, b, c, d, e, f, g, h] = hex8_digits(pc);
        return out.put(&[
            b' ', a, b, c, d, e, f, g, h, b' ', b'p', b'l', b'a', b'i', b'n', b'\n',
        ]);
    }
    push_hex8_between(out, pc)?;
    push_effect(out, effect)?;
    out.put(&[b'\n'])
}

/// Puts at the end the line of an operation in a tree of this depth.
#[inline(always)]
pub fn push_op_line<W: TextBuffer>(out: &mut W, depth: u32, op: Op) -> Result<(), NoMemory>
    requires { depth ≤ LEVELS }
    ensures text { OnOk result (Adds (W.text out.old) (W.text out.new) (op_line depth op)) }
    ensures room { UsesRoom 255 (W.room out.old) (W.room out.new) result }
{
    push_op_front(out, op.hart)?;
    push_key(out, depth, op.key)?;
    push_op_end(out, op.pc, op.effect)?;
    Ok(())
}
