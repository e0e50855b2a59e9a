//! Why a test isn't read.

ghost use Rattle.std.specs.Prelude.{◌≡◌};
ghost use Rattle.litmus_model.specs.declared.refusal.TestRefusal.TheVariants.{InLine};
ghost use Rattle.litmus_text.specs.declared.judged.Unread.TheVariants as unread;

use elf_load::of_ddm_types::NoMemory;
use litmus_model::{Fault, TestRefusal};

/// Why there is no test.
#[derive(Clone, Copy, Debug, PartialEq, Eq)]
pub enum Unread {
    Refused(TestRefusal),
    NoMemory,
}

impl From<NoMemory> for Unread {
    ghost from_gives = { λ _ answer. answer ≡ unread.NoMemory };

    fn from(_: NoMemory) -> Self {
        Unread::NoMemory
    }
}

impl From<TestRefusal> for Unread {
    ghost from_gives = { λ refusal answer. answer ≡ unread.Refused refusal };

    fn from(refusal: TestRefusal) -> Self {
        Unread::Refused(refusal)
    }
}

pub fn in_line(line: u32, fault: Fault) -> TestRefusal
    ensures { result ≡ InLine line fault }
{
    TestRefusal::InLine { line, fault }
}
