//! The line of each refusal of a table.

ghost use Rattle.std.specs.Prelude.{◌≡◌, ◌≤◌, length};
ghost use Rattle.ddm_cli.specs.TableLines.{in_line, table_line, unread_table_line, whole};

use crate::of_report::FaultLine;
use joining::of_join_model::TableRefusal;

// The line for a table that is refused as a whole.
fn whole(number: u32, words: &[u8]) -> FaultLine
    requires { length words.now ≤ 14 }
    ensures { result ≡ whole number words.now }
{
    let mut text = FaultLine::new();
    text.push(b"ddm: table ");
    text.push_number(u64::from(number));
    text.push(b": ");
    text.push(words);
    text.push(b"\n");
    text
}

// The line for a table that is refused in a line.
fn in_line(number: u32, line: u32, words: &[u8]) -> FaultLine
    requires { length words.now ≤ 9 }
    ensures { result ≡ in_line number line words.now }
{
    let mut text = FaultLine::new();
    text.push(b"ddm: table ");
    text.push_number(u64::from(number));
    text.push(b" line ");
    text.push_number(u64::from(line));
    text.push(b": ");
    text.push(words);
    text.push(b"\n");
    text
}

/// The line for a table that isn't accepted.
pub fn table_line(number: u32, refusal: TableRefusal) -> FaultLine
    ensures { result ≡ table_line number refusal }
{
    match refusal {
        TableRefusal::TooLong => whole(number, b"too long"),
        TableRefusal::BadLine(line) => in_line(number, line, b"bad line"),
        TableRefusal::NoEnd(line) => in_line(number, line, b"no end"),
        TableRefusal::AfterEnd(line) => in_line(number, line, b"after end"),
        TableRefusal::OtherKind => whole(number, b"other kind"),
        TableRefusal::TooManyRuns => whole(number, b"too many runs"),
    }
}

/// The line for a table that can't be read.
pub fn unread_table_line(number: u32) -> FaultLine
    ensures { result ≡ unread_table_line number }
{
    let mut text = FaultLine::new();
    text.push(b"ddm: cannot read table ");
    text.push_number(u64::from(number));
    text.push(b"\n");
    text
}
