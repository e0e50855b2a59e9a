//! Trees, images and machines from the bytes of files.

ghost use Rattle.std.specs.Prelude.{◌≡◌, ◌≤◌, ◌+◌, ◌*◌, None, Ok, Some, IfOk, IfErr};
ghost use Rattle.ddm_cli.specs.TreeModel.Start.Sources.{start_of_harts};
ghost use Rattle.witness_check.specs.Reader.{begun, setting_of};
ghost use Rattle.witness_check.specs.Start as check;
ghost use Rattle.ddm_cli.specs.BusLaws.IsTree.{IsTree};
ghost use Rattle.ddm_cli.specs.ElfLoad.ElfFile.{image_of};
ghost use Rattle.ddm_cli.specs.TreeModel.Start.Machine.{start_refusal};
ghost use Rattle.run_engine.specs.Started.{kind_of_tree, started};
ghost use Rattle.ddm_cli.specs.AnyMachine.Any.{machine_state};
ghost use Rattle.ddm_cli.specs.AnyMachine.Kind.{kind_of};
ghost use Rattle.ddm_cli.specs.Causes.{BuildCause, NoImage, SettingCause, TreeCause};
ghost use Rattle.ddm_cli.specs.Parts.{tree_at};

use crate::of_any_machine::release;
use crate::of_ddm_types::Start;
use crate::of_elf_load::{Image, ImageRefusal, load};
use crate::of_tree_config::{TreeConfig, TreeRefusal, read_tree};
use crate::status::Status;
use run_engine::{AnyMachine, BuildRefusal, build};
use std::alloc::Global;
use witness_check::{CheckRefusal, WitnessReader};

/// The tree that a file's bytes say.
pub fn judged_tree(alloc: Global, bytes: &[u8]) -> Result<TreeConfig, Status>
    ensures found { IfOk result (λ t. tree_at bytes.now ≡ Some t) }
    ensures tree { IfOk result IsTree }
    ensures cause { IfErr result (TreeCause (Some bytes.now) 0 0) }
{
    match read_tree(alloc, bytes) {
        Ok(tree) => Ok(tree),
        Err(TreeRefusal::NoMemory) => Err(Status::NoMemory),
        Err(refusal) => Err(Status::Tree(refusal)),
    }
}

/// The image that a file's bytes are, for a tree.
pub fn loaded(alloc: Global, tree: &TreeConfig, bytes: &[u8]) -> Result<Image, Status>
    ensures image { IfOk result (λ image. image_of tree.now.item_bytes bytes.now ≡ Ok image) }
    ensures cause { IfErr result (NoImage tree.now (Some bytes.now) 0 0) }
{
    match load(alloc, bytes, tree.item_bytes) {
        Ok(image) => Ok(image),
        Err(ImageRefusal::NoMemory) => Err(Status::NoMemory),
        Err(refusal) => Err(Status::ImageLoad(refusal)),
    }
}

/// The machine of a tree and an image.
pub fn built(alloc: Global, tree: &TreeConfig, image: &Image) -> Result<AnyMachine, Status>
    ensures built { IfOk result (λ m. machine_state m ≡ started tree.now image.now) }
    ensures kind { IfOk result (λ m. kind_of m ≡ kind_of_tree tree.now) }
    ensures accepted { IfOk result (λ m. start_refusal tree.now image.now ≡ None) }
    ensures cause { IfErr result (BuildCause tree.now image.now) }
{
    match build(alloc, tree, image) {
        Ok(machine) => Ok(machine),
        Err(BuildRefusal::NoMemory) => Err(Status::NoMemory),
        Err(refusal) => Err(Status::ImageBuild(refusal)),
    }
}

/// Two machines of a tree and an image.
pub fn built_twice(
    alloc: Global,
    tree: &TreeConfig,
    image: &Image,
) -> Result<(AnyMachine, AnyMachine), Status>
    ensures first { IfOk result (λ ms. machine_state ms.0 ≡ started tree.now image.now) }
    ensures second { IfOk result (λ ms. machine_state ms.1 ≡ started tree.now image.now) }
    ensures kind { IfOk result (λ ms. kind_of ms.1 ≡ kind_of ms.0) }
    ensures accepted { IfOk result (λ ms. start_refusal tree.now image.now ≡ None) }
    ensures cause { IfErr result (BuildCause tree.now image.now) }
{
    let first = built(alloc, tree, image)?;
    match built(alloc, tree, image) {
        Ok(second) => Ok((first, second)),
        Err(status) => {
            release(first);
            Err(status)
        }
    }
}

// What the harts begin with.
fn harts_start(tree: &TreeConfig, image: &Image) -> Start
    ensures start { result ≡ start_of_harts tree.now image.now }
    ensures few { result.harts ≤ 64 }
    ensures stacks { result.stack_base + result.harts * result.stack_bytes ≤ 4294967280 }
{
    Start {
        entry: image.entry,
        harts: tree.nodes.harts(),
        stack_base: tree.stack_base,
        stack_bytes: tree.stack_bytes,
    }
}

/// The reader of a witness for a tree and an image.
pub fn begun(alloc: Global, tree: &TreeConfig, image: &Image) -> Result<WitnessReader, Status>
    ensures begun { IfOk result (λ reader. reader ≡ begun (setting_of tree.now image.now)) }
    ensures accepted { IfOk result (λ reader. check.start_refusal (setting_of tree.now image.now) ≡ None) }
    ensures cause { IfErr result (SettingCause tree.now image.now) }
{
    match WitnessReader::new(alloc, image, harts_start(tree, image), tree.item_bytes) {
        Ok(reader) => Ok(reader),
        Err(CheckRefusal::TooManyItems(count)) => {
            Err(Status::ImageBuild(BuildRefusal::TooManyItems(count)))
        }
        Err(CheckRefusal::StackOverlap { hart, header }) => {
            Err(Status::ImageBuild(BuildRefusal::StackOverlap { hart, header }))
        }
        Err(_) => Err(Status::NoMemory),
    }
}
