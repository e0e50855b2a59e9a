//! The text of the table.

ghost use Rattle.std.specs.Prelude.{◌≡◌, OnOk, flat_map};
ghost use Rattle.outcomes.specs.DdmText.Adds.{Adds};
ghost use Rattle.outcome_model.specs.Table.{line_text, table_text};
ghost use Rattle.survey_model.specs.Survey.{table_text as survey_table_text};

use crate::line::OutcomeLine;
use crate::of_ddm_text::push_decimal;
use crate::of_ddm_types::NoMemory;
use measuring::of_report::push_bytes;

// The line of an outcome.
#[tactic(auto, unfolding(outcome_model::specs::Table::line_text))]
fn push_line(out: &mut Vec<u8>, line: &OutcomeLine) -> Result<(), NoMemory>
    ensures { OnOk result (Adds out.old.items out.new.items (line_text line.now)) }
{
    push_bytes(out, b"outcome ")?;
    push_decimal(out, line.times)?;
    push_bytes(out, b" ")?;
    push_decimal(out, line.seed)?;
    push_bytes(out, line.text.as_slice())?;
    push_bytes(out, b"\n")?;
    Ok(())
}

fn push_lines(out: &mut Vec<u8>, lines: &[OutcomeLine]) -> Result<(), NoMemory>
    ensures { OnOk result (Adds out.old.items out.new.items (flat_map line_text lines.now)) }
{
    for line in lines {
        push_line(out, line)?;
    }
    Ok(())
}

/// Puts at the end the text of a table of so many seeds.
#[tactic(auto, unfolding(outcome_model::specs::Table::table_text))]
pub fn push_table(out: &mut Vec<u8>, seeds: u32, lines: &[OutcomeLine]) -> Result<(), NoMemory>
    ensures { OnOk result (Adds out.old.items out.new.items (table_text seeds lines.now)) }
{
    push_bytes(out, b"outcomes ")?;
    push_decimal(out, lines.len() as u64)?;
    push_bytes(out, b" runs ")?;
    push_decimal(out, u64::from(seeds))?;
    push_bytes(out, b"\n")?;
    push_lines(out, lines)?;
    push_bytes(out, b"end\n")?;
    Ok(())
}

/// Puts at the end the text of a survey of so many seeds.
#[tactic(auto, unfolding(survey_model::specs::Survey::table_text))]
pub fn push_survey(out: &mut Vec<u8>, seeds: u32, lines: &[OutcomeLine]) -> Result<(), NoMemory>
    ensures { OnOk result (Adds out.old.items out.new.items (survey_table_text seeds lines.now)) }
{
    push_bytes(out, b"survey ")?;
    push_decimal(out, lines.len() as u64)?;
    push_bytes(out, b" runs ")?;
    push_decimal(out, u64::from(seeds))?;
    push_bytes(out, b"\n")?;
    push_lines(out, lines)?;
    push_bytes(out, b"end\n")?;
    Ok(())
}
