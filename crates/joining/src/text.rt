//! The text of a table.

ghost use Rattle.std.specs.Prelude.{◌≡◌, OnOk, flat_map};
ghost use Rattle.joining.specs.DdmText.Adds.{Adds};
ghost use Rattle.joining.specs.OutcomeModel.Table.{line_text};
ghost use Rattle.join_model.specs.Table.{kind_name, text_of};

use crate::line::OutcomeLine;
use crate::of_ddm_text::push_decimal;
use crate::of_ddm_types::NoMemory;
use crate::of_join_model::TableKind;

fn push_bytes(out: &mut Vec<u8>, bytes: &[u8]) -> Result<(), NoMemory>
    ensures { OnOk result (Adds out.old.items out.new.items bytes.now) }
{
    out.extend_from_slice(bytes)?;
    Ok(())
}

#[tactic(auto, unfolding(crate::specs::Opened::line_text))]
fn push_line(out: &mut Vec<u8>, line: &OutcomeLine) -> Result<(), NoMemory>
    ensures { OnOk result (Adds out.old.items out.new.items (line_text line.now)) }
{
    push_bytes(out, b"outcome ")?;
    push_decimal(out, line.times)?;
    push_bytes(out, b" ")?;
    push_decimal(out, line.seed)?;
    push_bytes(out, line.text.as_slice())?;
    push_bytes(out, b"\n")?;
    Ok(())
}

fn push_lines(out: &mut Vec<u8>, lines: &[OutcomeLine]) -> Result<(), NoMemory>
    ensures { OnOk result (Adds out.old.items out.new.items (flat_map line_text lines.now)) }
{
    for line in lines {
        push_line(out, line)?;
    }
    Ok(())
}

fn kind_name(kind: TableKind) -> &'static [u8]
    ensures { result.now ≡ kind_name kind }
{
    match kind {
        TableKind::Outcomes => b"outcomes",
        TableKind::Survey => b"survey",
    }
}

/// Puts at the end the text of a table of so many runs.
#[tactic(auto, unfolding(join_model::specs::Table::text_of))]
pub fn push_table(
    out: &mut Vec<u8>,
    kind: TableKind,
    runs: u64,
    lines: &[OutcomeLine],
) -> Result<(), NoMemory>
    ensures { OnOk result (Adds out.old.items out.new.items (text_of (record { kind = kind; runs = runs; lines = lines.now }))) }
{
    push_bytes(out, kind_name(kind))?;
    push_bytes(out, b" ")?;
    push_decimal(out, lines.len() as u64)?;
    push_bytes(out, b" runs ")?;
    push_decimal(out, runs)?;
    push_bytes(out, b"\n")?;
    push_lines(out, lines)?;
    push_bytes(out, b"end\n")?;
    Ok(())
}
