//! The lines of the table.

ghost use Rattle.std.specs.Prelude.{◌≡◌, OnOk, decimal, flat_map};
ghost use Rattle.schedule_log.specs.DdmText.Adds.{Adds};
ghost use Rattle.exploring.specs.SearchModel.Explored.{line_text};

use explorer::Line;
use explorer::of_ddm_types::NoMemory;
use schedule_log::of_ddm_text::push_decimal;

// Each puts text at the end.

pub(crate) fn push_bytes(out: &mut Vec<u8>, text: &[u8]) -> Result<(), NoMemory>
    ensures { OnOk result (Adds out.old.items out.new.items text.now) }
{
    out.extend_from_slice(text)?;
    Ok(())
}

pub(crate) fn push_count(out: &mut Vec<u8>, count: usize) -> Result<(), NoMemory>
    ensures { OnOk result (Adds out.old.items out.new.items (decimal count)) }
{
    push_decimal(out, count as u64)
}

#[tactic(auto, unfolding(crate::specs::Opened::line_text))]
fn push_line(out: &mut Vec<u8>, word: &[u8], line: &Line) -> Result<(), NoMemory>
    ensures { OnOk result (Adds out.old.items out.new.items (line_text word.now line.now)) }
{
    push_bytes(out, word)?;
    push_bytes(out, b" ")?;
    push_count(out, line.schedule.len())?;
    push_bytes(out, &line.outcome)?;
    push_bytes(out, b"\n")
}

/// The lines with this word.
pub(crate) fn push_lines(out: &mut Vec<u8>, word: &[u8], lines: &[Line]) -> Result<(), NoMemory>
    ensures { OnOk result (Adds out.old.items out.new.items (flat_map (line_text word.now) lines.now)) }
{
    for line in lines {
        push_line(out, word, line)?;
    }
    Ok(())
}
