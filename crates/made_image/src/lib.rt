//! The made image: the ELF file of a random program, by its seed and its number of rounds.
#![tactic(auto)]

mod examples;
mod laws;
mod making;
pub mod of_ddm_types;
pub mod of_rv_decode;
mod program;

pub use examples::made_example;
pub use laws::made_images_load;
pub use making::make_image;
