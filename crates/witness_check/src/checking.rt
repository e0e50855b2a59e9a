//! The text of a witness is judged as a whole.

ghost use Rattle.std.specs.Prelude.{◌≡◌, ◌⊎◌, ◌≤◌, ◌+◌, ◌*◌, ℕ, Ok, Err, IfErr, IfOk};
ghost use Rattle.witness_check.specs.DdmTypes.ItemTable.{IsItemSize};
ghost use Rattle.witness_check.specs.Start.{check_of};
ghost use Rattle.witness_check.specs.Reader.{setting};
ghost use Rattle.witness_check.specs.Witness.{IsAccepted, IsRefused};
ghost use Rattle.witness_check.specs.declared.refusal.CheckRefusal.TheVariants as refusal;

use crate::of_ddm_types::Start;
use crate::of_elf_load::Image;
use crate::reader::WitnessReader;
use crate::refusal::CheckRefusal;
use std::alloc::Global;

// What a text comes to.
fn answer(
    alloc: Global,
    image: &Image,
    start: Start,
    item_bytes: u32,
    text: &[u8],
) -> Result<u32, CheckRefusal>
    requires size { IsItemSize item_bytes }
    requires harts { start.harts ≤ 64 }
    requires stacks { start.stack_base + start.harts * start.stack_bytes ≤ 4294967280 }
    ensures { (result ≡ Err refusal.NoMemory) ⊎ (result ≡ check_of (setting image.now start item_bytes) text.now) }
{
    match WitnessReader::new(alloc, image, start, item_bytes) {
        Err(refusal) => Err(refusal),
        Ok(mut reader) => {
            // What is too long is refused at its end, too.
            let _ = reader.feed(text);
            reader.finish()
        }
    }
}

/// Judges the text of a witness: the number of its lines, if each is the line of an operation that is the next step of its
/// hart, from the start of the image and the harts; or the first refusal.
pub fn check(
    alloc: Global,
    image: &Image,
    start: Start,
    item_bytes: u32,
    text: &[u8],
) -> Result<u32, CheckRefusal>
    requires size { IsItemSize item_bytes }
    requires harts { start.harts ≤ 64 }
    requires stacks { start.stack_base + start.harts * start.stack_bytes ≤ 4294967280 }
    ensures answer { (result ≡ Err refusal.NoMemory) ⊎ (result ≡ check_of (setting image.now start item_bytes) text.now) }

    // A number comes exactly where the text is the lines of so many legal operations, apart from want of memory.
    ensures accepted { IfOk result (IsAccepted (setting image.now start item_bytes) text.now) }
    ensures complete { (n : ℕ) → IsAccepted (setting image.now start item_bytes) text.now n
        → (result ≡ Err refusal.NoMemory) ⊎ (result ≡ Ok n) }
    ensures refused { IfErr result (λ r. (r ≡ refusal.NoMemory) ⊎ IsRefused (setting image.now start item_bytes) text.now r) }
{
    answer(alloc, image, start, item_bytes, text)
}
