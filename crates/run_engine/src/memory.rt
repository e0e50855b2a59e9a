//! The words of an item at the start.

ghost use Rattle.std.specs.Prelude.{◌≡◌, ◌≤◌};
ghost use Rattle.run_engine.specs.TreeModel.Start.Memory.{item_words};

use crate::of_ddm_types::Words;
use crate::of_elf_load::Segment;
use start_memory::memory_words;

/// The words of the item at this address, at the start.
pub fn item_words<const WORDS: usize>(segments: &[Segment], address: u32) -> Words<WORDS>
    requires { WORDS ≤ 16 }
    ensures { result ≡ item_words WORDS segments.now address }
{
    let mut words = [0; WORDS];
    memory_words(segments, u64::from(address), &mut words);
    Words { w: words }
}
