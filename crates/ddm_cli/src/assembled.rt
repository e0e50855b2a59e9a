//! The command `assemble`: the image of a litmus test.

ghost use Rattle.std.specs.Prelude.{◌≡◌, ◌<◌, ◌≤◌, ℕ, List, Ok, Some, IfErr, IfOk, IfSome, OnErr, length};
ghost use Rattle.ddm_cli.specs.BusLaws.IsTree.{IsTree};
ghost use Rattle.ddm_cli.specs.DdmOutside.Causes.{HasCause};
ghost use Rattle.ddm_cli.specs.Assembling.{AssemblyCause, NoAssembly, TestCause, assembled_at};
ghost use Rattle.ddm_words.specs.Commands.{to_assemble};
ghost use Rattle.ddm_cli.specs.Top.{HasAccepted, WritesAccepted};
ghost use Rattle.ddm_words.specs.Views.{assembly_from, placing_from};

use crate::files::tree_file;
use crate::of_ddm_outside::{Failed, Shelf, Sink};
use crate::of_report::write_all;
use crate::of_tree_config::TreeConfig;
use crate::reading::{ReadError, read_buffer, read_whole};
use crate::status::Status;
use ddm_words::of_litmus_files::{
    FileRefusal, Places, TestRefusal, Unassembled, assembled, read_places,
};
use ddm_words::{Assembly, Placing};
use std::alloc::Global;

/// The most bytes of a litmus test that are read.
const MOST_TEST: u64 = 65_536;

/// The bytes of a litmus test.
pub fn test_file<F: Shelf>(
    alloc: Global,
    files: &mut F,
    name: &str,
    buffer: &mut [u8],
) -> Result<Vec<u8>, Status>
    requires room { 0 < length buffer.old }
    ensures found { IfOk result (λ text. IfSome (F.told files.old name.now) (λ file. text.items ≡ file)) }
    ensures cause { IfErr result
        (TestCause (F.told files.old name.now) (F.faults files.old name.now)
        (F.faults files.new name.now)) }
    ensures same { F.told files.new ≡ F.told files.old }
    ensures later { (other : List ℕ) → F.faults files.old other ≤ F.faults files.new other }
{
    match read_whole(alloc, files, name, MOST_TEST, buffer) {
        Ok(bytes) => Ok(bytes),
        Err(ReadError::Failed) => Err(Status::UnreadTest),
        Err(ReadError::TooLong) => Err(Status::Litmus(FileRefusal::Test(TestRefusal::TooLong))),
        Err(ReadError::Memory) => Err(Status::NoMemory),
    }
}

// The leaves that the words say; None where each thread is on the leaf of its own number.
fn places_of(placing: Placing<'_>) -> Option<Places>
    ensures { result ≡ placing_from placing.entry }
{
    match placing {
        Placing::InOrder => None,
        Placing::Named(word) => read_places(word.as_bytes()),
    }
}

// The image of the test of a file's bytes.
#[tactic(auto, unfolding(crate::specs::Assembling::assembled_at))]
fn image_said(
    alloc: Global,
    assembly: Assembly<'_>,
    tree: &TreeConfig,
    file: &[u8],
) -> Result<Vec<u8>, Status>
    requires tree { IsTree tree.now }
    ensures image { IfOk result (λ image. assembled_at (assembly_from assembly.entry) file.now tree.now ≡ Ok image.items) }
    ensures cause { IfErr result (AssemblyCause (assembly_from assembly.entry) tree.now (Some file.now)) }
{
    let leaves = tree.nodes.harts();
    let places = places_of(assembly.placing);
    match assembled(alloc, assembly.runs, file, leaves, tree.item_bytes, places) {
        Ok(made) => Ok(made.image),
        Err(Unassembled::Refused(refusal)) => Err(Status::Litmus(refusal)),
        Err(Unassembled::NoMemory) => Err(Status::NoMemory),
    }
}

// The image of a test file for a tree file, or the status without it.
fn assembled_said<F: Shelf>(
    alloc: Global,
    files: &mut F,
    assembly: Assembly<'_>,
) -> Result<Vec<u8>, Status>
    ensures taken { IfOk result
        (λ image. HasAccepted F.told files.old image.items (to_assemble (assembly_from assembly.entry))) }
    ensures refused { IfErr result
        (λ status. NoAssembly F.told F.faults files.old files.new status (assembly_from assembly.entry)) }
{
    let mut buffer = read_buffer(alloc)?;
    let tree = tree_file(alloc, files, assembly.tree, &mut buffer)?;
    let file = match test_file(alloc, files, assembly.test, &mut buffer) {
        Ok(file) => file,
        Err(status) => return Err(status),
    };
    image_said(alloc, assembly, &tree, &file)
}

/// Writes the image of a test, or answers the status without it.
pub fn write_assembled<F: Shelf, K: Sink>(
    alloc: Global,
    files: &mut F,
    out: &mut K,
    assembly: Assembly<'_>,
) -> Result<Result<(), Failed>, Status>
    ensures written { IfOk result
        (WritesAccepted F.told files.old (K.held out.old) (K.held out.new)
        (to_assemble (assembly_from assembly.entry))) }
    ensures failed { IfOk result (HasCause (K.faults out.old) (K.faults out.new)) }
    ensures refused { IfErr result
        (λ status. NoAssembly F.told F.faults files.old files.new status (assembly_from assembly.entry)) }
    ensures same { OnErr result (K.held out.new ≡ K.held out.old) }
{
    let image = assembled_said(alloc, files, assembly)?;
    Ok(write_all(out, &image))
}
