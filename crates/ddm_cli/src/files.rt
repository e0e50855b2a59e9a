//! Trees, images and machines from files, read in their order.

ghost use Rattle.std.specs.Prelude.{◌≡◌, ◌<◌, ◌≤◌, ℕ, List, Ok, Some, IsSome, length, IfOk, IfErr, IfSome};
ghost use Rattle.ddm_cli.specs.TreeModel.Start.Sources.{ImageValue};
ghost use Rattle.ddm_cli.specs.BusLaws.IsTree.{IsTree};
ghost use Rattle.ddm_cli.specs.ElfLoad.ElfFile.{image_of};
ghost use Rattle.ddm_cli.specs.MadeImage.MadeImage.{made_image};
ghost use Rattle.ddm_cli.specs.AnyMachine.Any.{machine_state};
ghost use Rattle.ddm_cli.specs.AnyMachine.Kind.{kind_of};
ghost use Rattle.ddm_cli.specs.Causes.{ImageCause, AcceptedAs, Accepts, JudgedImageCause, NoImage, TreeCause};
ghost use Rattle.ddm_words.specs.Commands.{IsMakeable};
ghost use Rattle.ddm_cli.specs.Parts.{BeginsFor, IsStart, parts_in, tree_at};
ghost use Rattle.ddm_cli.specs.Told.{image_faults, image_told};
ghost use Rattle.ddm_words.specs.Views.{image_from};

use crate::judging::{begun, built, built_twice, judged_tree, loaded};
use crate::limits::{MOST_IMAGE, MOST_TREE};
use crate::of_ddm_outside::Shelf;
use crate::of_elf_load::{Image, ImageRefusal};
use crate::of_made_image::make_image;
use crate::of_report::FileRole;
use crate::of_tree_config::{TreeConfig, TreeRefusal};
use crate::reading::{ReadError, read_whole};
use crate::status::Status;
use ddm_words::ImageSource;
use run_engine::AnyMachine;
use std::alloc::Global;
use witness_check::WitnessReader;

/// The tree of a tree file.
pub fn tree_file<F: Shelf>(
    alloc: Global,
    files: &mut F,
    name: &str,
    buffer: &mut [u8],
) -> Result<TreeConfig, Status>
    requires { 0 < length buffer.old }
    ensures found { IfOk result (AcceptedAs tree_at (F.told files.old name.now)) }
    ensures tree { IfOk result IsTree }
    ensures cause { IfErr result (TreeCause (F.told files.old name.now) (F.faults files.old name.now) (F.faults files.new name.now)) }
    ensures same { F.told files.new ≡ F.told files.old }
    ensures later { (other : List ℕ) → F.faults files.old other ≤ F.faults files.new other }
{
    match read_whole(alloc, files, name, MOST_TREE, buffer) {
        Ok(bytes) => judged_tree(alloc, &bytes),
        Err(ReadError::Failed) => Err(Status::ReadFault(FileRole::TreeFile)),
        Err(ReadError::TooLong) => Err(Status::Tree(TreeRefusal::TooLong)),
        Err(ReadError::Memory) => Err(Status::NoMemory),
    }
}

/// The image of a file.
pub fn image_in<F: Shelf>(
    alloc: Global,
    files: &mut F,
    name: &str,
    buffer: &mut [u8],
    tree: &TreeConfig,
) -> Result<Image, Status>
    requires { 0 < length buffer.old }
    ensures found { IfOk result (λ i. IfSome (F.told files.old name.now) (λ file. image_of tree.now.item_bytes file ≡ Ok i)) }
    ensures cause { IfErr result
        (NoImage tree.now (F.told files.old name.now) (F.faults files.old name.now)
        (F.faults files.new name.now)) }
    ensures same { F.told files.new ≡ F.told files.old }
    ensures later { (other : List ℕ) → F.faults files.old other ≤ F.faults files.new other }
{
    match read_whole(alloc, files, name, MOST_IMAGE, buffer) {
        Ok(bytes) => loaded(alloc, tree, &bytes),
        Err(ReadError::Failed) => Err(Status::ReadFault(FileRole::ImageFile)),
        Err(ReadError::TooLong) => Err(Status::ImageLoad(ImageRefusal::TooLong)),
        Err(ReadError::Memory) => Err(Status::NoMemory),
    }
}

/// The machine of a tree and an image file.
pub fn image_file<F: Shelf>(
    alloc: Global,
    files: &mut F,
    name: &str,
    buffer: &mut [u8],
    tree: &TreeConfig,
) -> Result<AnyMachine, Status>
    requires { 0 < length buffer.old }
    ensures found { IfOk result
        (λ m. (i : ImageValue)
        × IsStart tree.now i (machine_state m)
        × IfSome (F.told files.old name.now) (λ file. image_of tree.now.item_bytes file ≡ Ok i)) }
    ensures taken { IfOk result (λ m. Accepts (parts_in tree.now) (F.told files.old name.now)) }
    ensures cause { IfErr result
        (ImageCause tree.now (F.told files.old name.now) (F.faults files.old name.now)
        (F.faults files.new name.now)) }
    ensures same { F.told files.new ≡ F.told files.old }
    ensures later { (other : List ℕ) → F.faults files.old other ≤ F.faults files.new other }
{
    let image = image_in(alloc, files, name, buffer, tree)?;
    built(alloc, tree, &image)
}

/// Two machines of a tree and an image file.
pub fn image_machines<F: Shelf>(
    alloc: Global,
    files: &mut F,
    name: &str,
    buffer: &mut [u8],
    tree: &TreeConfig,
) -> Result<(AnyMachine, AnyMachine), Status>
    requires { 0 < length buffer.old }
    ensures found { IfOk result
        (λ ms. (i : ImageValue)
        × IsStart tree.now i (machine_state ms.0)
        × IfSome (F.told files.old name.now) (λ file. image_of tree.now.item_bytes file ≡ Ok i)) }
    ensures alike { IfOk result (λ ms. machine_state ms.1 ≡ machine_state ms.0) }
    ensures kind { IfOk result (λ ms. kind_of ms.1 ≡ kind_of ms.0) }
    ensures cause { IfErr result
        (ImageCause tree.now (F.told files.old name.now) (F.faults files.old name.now)
        (F.faults files.new name.now)) }
    ensures same { F.told files.new ≡ F.told files.old }
    ensures later { (other : List ℕ) → F.faults files.old other ≤ F.faults files.new other }
{
    let image = image_in(alloc, files, name, buffer, tree)?;
    built_twice(alloc, tree, &image)
}

/// The machine of a tree and the made image of a seed.
fn made_machine(
    alloc: Global,
    tree: &TreeConfig,
    seed: u64,
    rounds: u32,
) -> Result<AnyMachine, Status>
    requires some { 1 ≤ rounds }
    requires few { rounds ≤ 50000 }
    ensures found { IfOk result
        (λ m. (i : ImageValue)
        × IsStart tree.now i (machine_state m)
        × (image_of tree.now.item_bytes (made_image seed rounds) ≡ Ok i)) }
    ensures taken { IfOk result (λ m. IsSome (parts_in tree.now (made_image seed rounds))) }
    ensures cause { IfErr result (ImageCause tree.now (Some (made_image seed rounds)) 0 0) }
{
    let bytes = make_image(alloc, seed, rounds)?;
    let image = loaded(alloc, tree, &bytes)?;
    built(alloc, tree, &image)
}

/// The machine of a tree and an image.
pub fn image_machine<F: Shelf>(
    alloc: Global,
    files: &mut F,
    image: ImageSource<'_>,
    buffer: &mut [u8],
    tree: &TreeConfig,
) -> Result<AnyMachine, Status>
    requires room { 0 < length buffer.old }
    requires made { IsMakeable (image_from image) }
    ensures found { IfOk result
        (λ m. (i : ImageValue)
        × IsStart tree.now i (machine_state m)
        × IfSome (image_told (F.told files.old) (image_from image.entry))
        (λ file. image_of tree.now.item_bytes file ≡ Ok i)) }
    ensures taken { IfOk result (λ m. Accepts (parts_in tree.now) (image_told (F.told files.old) (image_from image.entry))) }
    ensures cause { IfErr result
        (ImageCause tree.now (image_told (F.told files.old) (image_from image.entry))
        (image_faults (F.faults files.old) (image_from image.entry))
        (image_faults (F.faults files.new) (image_from image.entry))) }
    ensures same { F.told files.new ≡ F.told files.old }
    ensures later { (other : List ℕ) → F.faults files.old other ≤ F.faults files.new other }
{
    match image {
        ImageSource::File(name) => image_file(alloc, files, name, buffer, tree),
        ImageSource::Made { seed, rounds } => made_machine(alloc, tree, seed, rounds),
    }
}

/// The reader of a witness for a tree and an image file, of which nothing is kept but the flat machine.
pub fn setting_file<F: Shelf>(
    alloc: Global,
    files: &mut F,
    name: &str,
    buffer: &mut [u8],
    tree: &TreeConfig,
) -> Result<WitnessReader, Status>
    requires { 0 < length buffer.old }
    ensures found { IfOk result (BeginsFor tree.now (F.told files.old name.now)) }
    ensures cause { IfErr result
        (JudgedImageCause tree.now (F.told files.old name.now) (F.faults files.old name.now)
        (F.faults files.new name.now)) }
    ensures same { F.told files.new ≡ F.told files.old }
    ensures later { (other : List ℕ) → F.faults files.old other ≤ F.faults files.new other }
{
    let image = image_in(alloc, files, name, buffer, tree)?;
    begun(alloc, tree, &image)
}
