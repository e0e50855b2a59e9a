//! Turns are written as a schedule.

ghost use Rattle.std.specs.Prelude.{◌≡◌, OnOk, IfOk, codes, decimal};
ghost use Rattle.schedule_log.specs.DdmText.Adds.{Adds};
ghost use Rattle.text_model.specs.Schedule.{schedule_text, turn_line, turn_lines, turn_text};

use crate::of_ddm_text::push_decimal;
use crate::of_ddm_types::{NoMemory, Turn};
use std::alloc::Global;

fn push_bytes(out: &mut Vec<u8>, text: &[u8]) -> Result<(), NoMemory>
    ensures { OnOk result (Adds out.old.items out.new.items text.now) }
{
    out.extend_from_slice(text)?;
    Ok(())
}

// A number of one digit, as most are, is put as a byte and not as a text of some length.
fn push_number(out: &mut Vec<u8>, n: u32) -> Result<(), NoMemory>
    ensures { OnOk result (Adds out.old.items out.new.items (decimal n)) }
{
    if n < 10 {
        push_bytes(out, &[b'0' + n as u8])
    } else {
        push_decimal(out, u64::from(n))
    }
}

/// Puts a turn at the end, without a line feed.
#[tactic(auto, unfolding(text_model::specs::Schedule::turn_text))]
pub fn push_turn(out: &mut Vec<u8>, turn: Turn) -> Result<(), NoMemory>
    ensures { OnOk result (Adds out.old.items out.new.items (turn_text turn)) }
{
    match turn {
        Turn::Hart { hart, victim } => {
            push_bytes(out, b"h ")?;
            push_number(out, hart.0)?;
            push_bytes(out, b" ")?;
            push_number(out, u32::from(victim))
        }
        Turn::Down { bus } => {
            push_bytes(out, b"g ")?;
            push_number(out, bus.0)?;
            push_bytes(out, b" d")
        }
        Turn::Request { bus, child } => {
            push_bytes(out, b"g ")?;
            push_number(out, bus.0)?;
            push_bytes(out, b" q ")?;
            push_number(out, child.0)
        }
        Turn::Reply { bus, child } => {
            push_bytes(out, b"g ")?;
            push_number(out, bus.0)?;
            push_bytes(out, b" r ")?;
            push_number(out, child.0)
        }
        Turn::Leave { bus, child, choice } => {
            push_bytes(out, b"g ")?;
            push_number(out, bus.0)?;
            push_bytes(out, b" l ")?;
            push_number(out, child.0)?;
            push_bytes(out, b" ")?;
            push_number(out, u32::from(choice))
        }
    }
}

#[tactic(auto, unfolding(text_model::specs::Schedule::turn_line))]
fn push_line(out: &mut Vec<u8>, turn: Turn) -> Result<(), NoMemory>
    ensures { OnOk result (Adds out.old.items out.new.items (turn_line turn)) }
{
    push_turn(out, turn)?;
    push_bytes(out, b"\n")
}

#[tactic(auto, unfolding(text_model::specs::Schedule::turn_lines))]
fn push_lines(out: &mut Vec<u8>, turns: &[Turn]) -> Result<(), NoMemory>
    ensures { OnOk result (Adds out.old.items out.new.items (turn_lines turns.now)) }
{
    for turn in turns {
        push_line(out, *turn)?;
    }
    Ok(())
}

fn push_end(out: &mut Vec<u8>) -> Result<(), NoMemory>
    ensures { OnOk result (Adds out.old.items out.new.items (codes "end\n")) }
{
    push_bytes(out, b"end\n")
}

/// The one text of a schedule.
#[tactic(auto, unfolding(text_model::specs::Schedule::schedule_text))]
pub fn write_schedule(alloc: Global, turns: &[Turn]) -> Result<Vec<u8>, NoMemory>
    ensures { IfOk result (λ text. text.items ≡ schedule_text turns.now) }
{
    let mut text = Vec::new(alloc);
    push_lines(&mut text, turns)?;
    push_end(&mut text)?;
    Ok(text)
}
