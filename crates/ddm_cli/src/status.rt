//! How a command ended, and the number of it.

ghost use Rattle.std.specs.Prelude.{◌≡◌};
ghost use Rattle.ddm_cli.specs.Code.{exit_code};
ghost use Rattle.ddm_cli.specs.declared.status.Status.TheVariants.{NoMemory};

use crate::of_ddm_types::NoMemory;
use crate::of_elf_load::ImageRefusal;
use crate::of_report::FileRole;
use crate::of_text_model::ScheduleRefusal;
use crate::of_tree_config::{TreeKey, TreeRefusal};
use checkpoint::ResumeRefusal;
use ddm_words::of_litmus_files::FileRefusal;
use joining::of_join_model::TableRefusal;
use run_engine::BuildRefusal;
use witness_check::CheckRefusal;

/// How a command ended.
#[derive(Debug, Drop)]
pub enum Status {
    Done,
    /// The index of the first word at fault, or the number of words where one is missing.
    Usage(u32),
    /// Why the image isn't accepted.
    ImageLoad(ImageRefusal),
    /// Why the image and the tree make no machine.
    ImageBuild(BuildRefusal),
    /// Why the tree file isn't accepted.
    Tree(TreeRefusal),
    /// The line of the schedule, counted from 1, and why it isn't accepted.
    Schedule(u32, ScheduleRefusal),
    /// Why the witness isn't accepted. That nothing can be judged, since there is no start, is a refusal of the image.
    Witness(CheckRefusal),
    /// Why the checkpoint isn't accepted.
    Checkpoint(ResumeRefusal),
    /// The key of the first list that is too small for the turn that goes on to be named.
    SmallLists(TreeKey),
    /// The number of the table, counted from 1, and why it isn't accepted.
    Table(u32, TableRefusal),
    /// Why the file is no litmus test, or has no image for the tree.
    Litmus(FileRefusal),
    ReadFault(FileRole),
    /// The litmus test can't be read.
    UnreadTest,
    /// The number of the table that can't be read.
    UnreadTable(u32),
    WriteFault,
    NoMemory,
}

/// The number that the process ends with.
pub fn code(status: &Status) -> u8
    ensures { result ≡ exit_code status.now }
{
    match status {
        Status::Done => 0,
        Status::Usage(_) => 2,
        Status::ImageLoad(_) | Status::ImageBuild(_) => 3,
        Status::Tree(_) => 4,
        Status::Schedule(_, _) => 5,
        Status::ReadFault(_) | Status::UnreadTest | Status::UnreadTable(_) => 6,
        Status::WriteFault => 7,
        Status::NoMemory => 8,
        Status::Witness(_) => 10,
        Status::Checkpoint(_) => 11,
        Status::SmallLists(_) => 12,
        Status::Litmus(_) => 13,
        Status::Table(_, _) => 15,
    }
}

impl From<NoMemory> for Status {
    ghost from_gives = { λ _ s. s ≡ NoMemory };

    fn from(_: NoMemory) -> Self {
        Status::NoMemory
    }
}
