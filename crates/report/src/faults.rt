//! The lines of faults that no file is refused by.

ghost use Rattle.std.specs.Prelude.{◌≡◌};
ghost use Rattle.text_model.specs.Faults.{memory_fault, read_fault, usage_fault, write_fault};
ghost use Rattle.report.specs.Roles.{role_text};

use crate::line::Line;
use crate::roles::FileRole;

/// The line for words of the command that can't be followed, by the place of the first one at fault.
#[tactic(auto, unfolding(text_model::specs::Faults::usage_fault))]
pub fn usage_line(place: u32) -> Line
    ensures { result ≡ usage_fault place }
{
    let mut line = Line::new();
    line.push(b"ddm: usage: word ");
    line.push_number(u64::from(place));
    line.push(b"\n");
    line
}

/// The line for a file that can't be read.
#[tactic(auto, unfolding(text_model::specs::Faults::read_fault))]
pub fn read_line(role: FileRole) -> Line
    ensures { result ≡ read_fault (role_text role) }
{
    let mut line = Line::new();
    line.push(b"ddm: cannot read the ");
    line.push_role(role);
    line.push(b"\n");
    line
}

/// The line for an answer that can't be written.
pub fn write_line() -> Line
    ensures { result ≡ write_fault }
{
    let mut line = Line::new();
    line.push(b"ddm: cannot write\n");
    line
}

/// The line for memory that has run out.
pub fn memory_line() -> Line
    ensures { result ≡ memory_fault }
{
    let mut line = Line::new();
    line.push(b"ddm: no memory\n");
    line
}
