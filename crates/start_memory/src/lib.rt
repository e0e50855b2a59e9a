//! The memory that a program starts with: the items of an image's segments and of the harts' stacks, their words, and the
//! first stack that meets a segment.
#![tactic(auto)]

mod laws;
pub mod of_ddm_types;
pub mod of_elf_load;
mod overlaps;
mod spans;
mod words;

pub use laws::memory_is_the_start;
pub use overlaps::{Overlap, first_overlap};
pub use spans::spans_of;
pub use words::{memory_word, memory_words, words_of_items};
