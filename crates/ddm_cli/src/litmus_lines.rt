//! The line of each refusal of a litmus test.

ghost use Rattle.std.specs.Prelude.{◌≡◌, ◌≤◌, length};
ghost use Rattle.ddm_words.specs.LitmusModel.declared.refusal.TestRefusal.TheVariants.{TooLong};
ghost use Rattle.ddm_cli.specs.LitmusLines.{fault_name, in_line, litmus_line, numbered, test_line, unplaced_line, unread_test_line};

use crate::of_report::FaultLine;
use ddm_words::of_litmus_files::{Fault, FileRefusal, ImageRefusal, TestRefusal};

// The name of what is wrong in a line.
fn fault_name(fault: Fault) -> &'static [u8]
    ensures name { result.now ≡ fault_name fault }
    ensures short { length result.now ≤ 20 }
{
    match fault {
        Fault::OpenComment => b"open comment",
        Fault::OtherArchitecture => b"other architecture",
        Fault::BadName => b"bad name",
        Fault::NoInit => b"no init",
        Fault::BadByte => b"bad byte",
        Fault::LongWord => b"long word",
        Fault::OpenInit => b"open init",
        Fault::NoCondition => b"no condition",
        Fault::OpenRow => b"open row",
        Fault::NoThreads => b"no threads",
        Fault::TooManyRows => b"too many rows",
        Fault::BadRow => b"bad row",
        Fault::BadOperands => b"bad operands",
        Fault::BadNumber => b"bad number",
        Fault::SixtyFourBits => b"sixty four bits",
        Fault::UnknownInstruction => b"unknown instruction",
        Fault::SameLabel => b"same label",
        Fault::NoLabel => b"no label",
        Fault::UnsupportedType => b"unsupported type",
        Fault::NoThread => b"no thread",
        Fault::BadRegister => b"bad register",
        Fault::BadInit => b"bad init",
        Fault::Twice => b"twice",
        Fault::BadLocations => b"bad locations",
        Fault::Filter => b"filter",
        Fault::BadCondition => b"bad condition",
    }
}

// The line for a test that is refused in a line.
fn in_line(line: u32, words: &[u8]) -> FaultLine
    requires { length words.now ≤ 20 }
    ensures { result ≡ in_line line words.now }
{
    let mut text = FaultLine::new();
    text.push(b"ddm: litmus line ");
    text.push_number(u64::from(line));
    text.push(b": ");
    text.push(words);
    text.push(b"\n");
    text
}

// The line for a test that is refused for a number.
fn numbered(words: &[u8], number: u32) -> FaultLine
    requires { length words.now ≤ 20 }
    ensures { result ≡ numbered words.now number }
{
    let mut text = FaultLine::new();
    text.push(b"ddm: litmus: ");
    text.push(words);
    text.push(b" ");
    text.push_number(u64::from(number));
    text.push(b"\n");
    text
}

fn too_long_line() -> FaultLine
    ensures { result ≡ test_line TooLong }
{
    let mut text = FaultLine::new();
    text.push(b"ddm: litmus: too long\n");
    text
}

// The line for a file that is no test.
fn test_line(refusal: TestRefusal) -> FaultLine
    ensures { result ≡ test_line refusal }
{
    match refusal {
        TestRefusal::TooLong => too_long_line(),
        TestRefusal::InLine { line, fault } => in_line(line, fault_name(fault)),
        TestRefusal::TooManyObserved(number) => numbered(b"too many observed", number),
        TestRefusal::TooManyLocations(number) => numbered(b"too many locations", number),
    }
}

// The line for a test that has no image for the tree.
fn unplaced_line(refusal: ImageRefusal) -> FaultLine
    ensures { result ≡ unplaced_line refusal }
{
    match refusal {
        ImageRefusal::TooManyThreads(number) => numbered(b"too many threads", number),
        ImageRefusal::OtherPlaces(number) => numbered(b"other places", number),
        ImageRefusal::NoLeaf(number) => numbered(b"no leaf", number),
    }
}

/// The line for a litmus test that isn't accepted.
pub fn litmus_line(refusal: FileRefusal) -> FaultLine
    ensures { result ≡ litmus_line refusal }
{
    match refusal {
        FileRefusal::Test(refusal) => test_line(refusal),
        FileRefusal::Image(refusal) => unplaced_line(refusal),
    }
}

/// The line for a test that can't be read.
pub fn unread_test_line() -> FaultLine
    ensures { result ≡ unread_test_line }
{
    let mut text = FaultLine::new();
    text.push(b"ddm: cannot read the test\n");
    text
}
