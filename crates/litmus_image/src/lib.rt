//! The image of a litmus test for a tree: what its threads' code and its locations are as an ELF file.
#![tactic(auto)]

mod assembling;
mod instructions;
mod laws;
mod layout;
mod own_code;
mod places;

pub use assembling::{TestImage, assemble};
pub use laws::assembled_images_load;
pub use layout::word_of;
pub use places::Unmade;
