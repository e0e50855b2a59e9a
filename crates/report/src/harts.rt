//! The lines of a hart.

ghost use Rattle.std.specs.Prelude.{◌≡◌, ◌<◌, ◌≤◌, ◌+◌, ◌*◌, OnOk, length, take};
ghost use Rattle.report.specs.DdmText.Adds.{Adds};
ghost use Rattle.text_model.specs.Report.{hart_line, head_lines, or_dash, put_text, put_text_by, put_texts, regs_line, turns_line};
ghost use Rattle.report.specs.LineParts.{any_byte, are_silent, dash_behind};
ghost use Rattle.report.specs.ReportLeft.{hart_front};
ghost use Rattle.report.specs.Room.{UsesRoom};

use crate::buffers::TextBuffer;
use crate::digits::{push_hex2, push_hex8};
use crate::effects::push_state;
use crate::numbers::push_hart;
use crate::of_ddm_types::{Effect, HaltCause, HartNo, NoMemory, Op};
use crate::of_operation_list::Operations;
use crate::of_rv_hart::Hart;
use crate::pieces::{push_bytes, push_number, push_words};
use text_model::RunCounts;

/// Puts at the end the line that says what the turns came to.
pub fn push_turns_line<W: TextBuffer>(out: &mut W, counts: RunCounts) -> Result<(), NoMemory>
    ensures text { OnOk result (Adds (W.text out.old) (W.text out.new) (turns_line counts)) }
    ensures room { UsesRoom 111 (W.room out.old) (W.room out.new) result }
{
    push_bytes(out, b"turns ")?;
    push_number(out, counts.turns)?;
    push_bytes(out, b" retired ")?;
    push_number(out, counts.retired)?;
    push_bytes(out, b" granted ")?;
    push_number(out, counts.granted)?;
    push_bytes(out, b" busy ")?;
    push_number(out, counts.busy)?;
    push_bytes(out, b"\n")?;
    Ok(())
}

/// Puts at the end the first two lines.
#[tactic(auto, unfolding(text_model::specs::Report::head_lines))]
pub fn push_head<W: TextBuffer>(out: &mut W, counts: RunCounts) -> Result<(), NoMemory>
    ensures text { OnOk result (Adds (W.text out.old) (W.text out.new) (head_lines counts)) }
    ensures room { UsesRoom 117 (W.room out.old) (W.room out.new) result }
{
    push_bytes(out, b"ddm 1\n")?;
    push_turns_line(out, counts)
}

/// Puts at the end the line that says how a hart stands.
pub fn push_hart_line<W: TextBuffer>(
    out: &mut W,
    hart: HartNo,
    halt: Option<HaltCause>,
    pc: u32,
    done: u32,
) -> Result<(), NoMemory>
    ensures text { OnOk result (Adds (W.text out.old) (W.text out.new) (hart_line hart halt pc done)) }
    ensures room { UsesRoom 90 (W.room out.old) (W.room out.new) result }
{
    push_bytes(out, b"hart ")?;
    push_hart(out, hart)?;
    push_bytes(out, b" ")?;
    push_state(out, halt)?;
    push_bytes(out, b" pc ")?;
    push_hex8(out, pc)?;
    push_bytes(out, b" done ")?;
    push_number(out, done)?;
    push_bytes(out, b"\n")?;
    Ok(())
}

/// Puts at the end the line of a hart's registers. The first one, which is always 0, isn't shown.
#[tactic(auto, unfolding(text_model::specs::Report::regs_line))]
pub fn push_regs_line<W: TextBuffer>(
    out: &mut W,
    hart: HartNo,
    registers: &[u32],
) -> Result<(), NoMemory>
    requires { 0 < length registers.now }
    ensures text { OnOk result (Adds (W.text out.old) (W.text out.new) (regs_line hart registers.now)) }
    ensures room { UsesRoom (26 + 9 * length registers.now) (W.room out.old) (W.room out.new) result }
{
    push_bytes(out, b"regs ")?;
    push_hart(out, hart)?;
    push_words(out, &registers[1..])?;
    push_bytes(out, b"\n")?;
    Ok(())
}

// The byte that an instruction put.
fn push_put<W: TextBuffer>(out: &mut W, effect: Effect) -> Result<(), NoMemory>
    ensures text { OnOk result (Adds (W.text out.old) (W.text out.new) (put_text effect)) }
    ensures room { UsesRoom 2 (W.room out.old) (W.room out.new) result }
{
    if let Effect::Put { byte } = effect {
        push_hex2(out, byte)?;
    }
    Ok(())
}

/// Puts at the end what an operation adds to a hart's output.
#[inline(always)]
pub fn push_put_by<W: TextBuffer>(out: &mut W, hart: HartNo, op: Op) -> Result<(), NoMemory>
    ensures text { OnOk result (Adds (W.text out.old) (W.text out.new) (put_text_by hart op)) }
    ensures room { UsesRoom 2 (W.room out.old) (W.room out.new) result }
{
    if op.hart.0 == hart.0 {
        push_put(out, op.effect)?;
    }
    Ok(())
}

// Whether an instruction puts a byte.
#[inline(always)]
#[tactic(auto, unfolding(crate::specs::Opened::hex2))]
fn is_put(effect: Effect) -> bool
    ensures { result ≡ any_byte (put_text effect) }
{
    match effect {
        Effect::Put { .. } => true,
        _ => false,
    }
}

// Whether an operation puts a byte of a hart.
#[inline(always)]
fn puts_byte(hart: HartNo, op: Op) -> bool
    ensures { result ≡ any_byte (put_text_by hart op) }
{
    if op.hart.0 != hart.0 {
        return false;
    }
    is_put(op.effect)
}

#[tactic(auto, unfolding(text_model::specs::Report::put_texts))]
fn push_puts<W: TextBuffer>(out: &mut W, hart: HartNo, ops: &Operations) -> Result<(), NoMemory>
    ensures { OnOk result (Adds (W.text out.old) (W.text out.new) (put_texts hart ops.now.items)) }
{
    for place in 0..ops.len() {
        push_put_by(out, hart, ops.get(place))?;
    }
    Ok(())
}

/// Whether a hart has put anything in the operations before one.
#[tactic(auto, unfolding(text_model::specs::Report::put_texts))]
pub fn has_output(hart: HartNo, ops: &Operations, end: usize) -> bool
    requires { end ≤ length ops.now.items }
    ensures { result ≡ any_byte (put_texts hart (take end ops.now.items)) }
{
    for place in 0..end {
        if puts_byte(hart, ops.get(place)) {
            return true;
        }
    }
    false
}

/// Whether no hart has put anything.
pub fn are_silent(ops: &Operations) -> bool
    ensures { result ≡ are_silent ops.now.items }
{
    for place in 0..ops.len() {
        let op = ops.get(place);
        if is_put(op.effect) {
            return false;
        }
    }
    true
}

/// Puts at the end the dash of a hart that has put nothing.
pub fn push_dash<W: TextBuffer>(out: &mut W, hart: HartNo, ops: &Operations) -> Result<(), NoMemory>
    ensures text { OnOk result (Adds (W.text out.old) (W.text out.new) (dash_behind (put_texts hart ops.now.items))) }
    ensures room { UsesRoom 1 (W.room out.old) (W.room out.new) result }
{
    if !has_output(hart, ops, ops.len()) {
        push_bytes(out, b"-")?;
    }
    Ok(())
}

/// Puts at the end a hart's output, or a dash for none, out of operations in order of completion.
pub fn push_output<W: TextBuffer>(
    out: &mut W,
    hart: HartNo,
    ops: &Operations,
) -> Result<(), NoMemory>
    ensures { OnOk result (Adds (W.text out.old) (W.text out.new) (or_dash (put_texts hart ops.now.items))) }
{
    push_puts(out, hart, ops)?;
    push_dash(out, hart, ops)?;
    Ok(())
}

/// Puts at the end the lines of a hart, up to its output.
pub fn push_hart_front<W: TextBuffer>(
    out: &mut W,
    number: HartNo,
    hart: &Hart,
) -> Result<(), NoMemory>
    ensures text { OnOk result
        (Adds (W.text out.old) (W.text out.new)
        (hart_front (record { number = number; hart = hart.now.hart; done = hart.now.done }))) }
    ensures room { UsesRoom 429 (W.room out.old) (W.room out.new) result }
{
    push_hart_line(out, number, hart.halted(), hart.pc(), hart.done())?;
    push_regs_line(out, number, &hart.registers())?;
    push_bytes(out, b"out ")?;
    push_hart(out, number)?;
    push_bytes(out, b" ")?;
    Ok(())
}
