//! From the bytes of a test's file to its image.

ghost use Rattle.std.specs.Prelude.{◌≡◌, ◌≤◌, true, Ok, IfOk, is_ok};
ghost use Rattle.elf_load.specs.DdmTypes.ItemTable.{IsItemSize};
ghost use Rattle.elf_load.specs.ElfFile.{image_of};
ghost use Rattle.litmus_model.specs.Image.{places_of, test_image};
ghost use Rattle.litmus_model.specs.Kept.{test_from};
ghost use Rattle.litmus_model.specs.Sound.{IsSound};
ghost use Rattle.litmus_model.specs.Test.{test_of};
ghost use Rattle.litmus_image.specs.Made.{Assembles as Made};
ghost use Rattle.litmus_files.specs.Assembled.{Assembles, file_image};

use crate::places::Places;
use litmus_image::{TestImage, Unmade, assemble};
use litmus_model::{ImageRefusal, Runs, Test, TestRefusal};
use litmus_test::read_test;
use litmus_text::Unread;
use std::alloc::Global;

/// A test, its image for a tree, and the leaves of its threads.
#[derive(Drop)]
pub struct AssembledTest {
    pub test: Test,
    pub image: Vec<u8>,
    pub places: Vec<u32>,
}

/// Why a file has no image for a tree.
#[derive(Clone, Copy, Debug, PartialEq, Eq)]
pub enum FileRefusal {
    /// It is no litmus test.
    Test(TestRefusal),
    /// The test has no image for the tree.
    Image(ImageRefusal),
}

/// Why there is no image.
#[derive(Clone, Copy, Debug, PartialEq, Eq)]
pub enum Unassembled {
    Refused(FileRefusal),
    NoMemory,
}

impl From<Unread> for Unassembled {
    ghost use Rattle.litmus_files.specs.Assembled.{of_unread};

    ghost from_gives = { λ unread answer. answer ≡ of_unread unread };

    fn from(unread: Unread) -> Self {
        match unread {
            Unread::Refused(refusal) => Unassembled::Refused(FileRefusal::Test(refusal)),
            Unread::NoMemory => Unassembled::NoMemory,
        }
    }
}

impl From<Unmade> for Unassembled {
    ghost use Rattle.litmus_files.specs.Assembled.{of_unmade};

    ghost from_gives = { λ unmade answer. answer ≡ of_unmade unmade };

    fn from(unmade: Unmade) -> Self {
        match unmade {
            Unmade::Refused(refusal) => Unassembled::Refused(FileRefusal::Image(refusal)),
            Unmade::NoMemory => Unassembled::NoMemory,
        }
    }
}

/// The image of a test whose threads are on these leaves, or thread k on leaf k where none are given.
fn image_of(
    alloc: Global,
    runs: Runs,
    test: &Test,
    leaves: u32,
    item_bytes: u32,
    places: &Option<Places>,
) -> Result<TestImage, Unmade>
    requires sound { IsSound (test_from test.now) }
    requires large { 4 ≤ item_bytes }
    requires small { item_bytes ≤ 64 }
    requires leaves { leaves ≤ 64 }
    ensures image { Made (test_image runs (test_from test.now) leaves item_bytes places.now) result }
    ensures places { IfOk result (λ made. places_of test.now.threads leaves places.now ≡ Ok made.places.items) }
{
    match places {
        Some(places) => assemble(alloc, runs, test, leaves, item_bytes, Some(places.leaves())),
        None => assemble(alloc, runs, test, leaves, item_bytes, None),
    }
}

/// The test of a file and its image for a tree with so many leaves and bytes in an item. Places are the leaves of the
/// threads; where none are given, thread k is on leaf k.
#[tactic(auto, using(crate::proofs::Images::image_sizes), unfolding(crate::specs::Assembled::file_image))]
pub fn assembled(
    alloc: Global,
    runs: Runs,
    file: &[u8],
    leaves: u32,
    item_bytes: u32,
    places: Option<Places>,
) -> Result<AssembledTest, Unassembled>
    requires leaves { leaves ≤ 64 }
    requires item { IsItemSize item_bytes }
    ensures image { Assembles (file_image runs file.now leaves item_bytes places) result }
    ensures test { IfOk result (λ a. test_of file.now ≡ Ok (test_from a.test)) }
    ensures sound { IfOk result (λ a. IsSound (test_from a.test)) }
    ensures places { IfOk result (λ a. places_of a.test.threads leaves places ≡ Ok a.places.items) }

    // Other commands load it.
    ensures loads { IfOk result (λ a. is_ok (image_of item_bytes a.image.items) ≡ true) }
{
    let test = read_test(alloc, file)?;
    let made = image_of(alloc, runs, &test, leaves, item_bytes, &places)?;
    Ok(AssembledTest {
        test,
        image: made.bytes,
        places: made.places,
    })
}
