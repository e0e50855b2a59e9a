//! ELF images from the outside: 32 bits, little-endian, RISC-V, executable. `load` reads a file's bytes as an image or says
//! what it is refused for; `write_image` writes one plain form.
#![tactic(auto)]

mod code;
mod copying;
mod examples;
mod fields;
mod file_rules;
mod header_rules;
mod headers;
mod image;
mod loading;
pub mod of_ddm_types;
mod refusal;
mod round_trip;
mod segments;
mod sizes;
mod writing;

pub use code::segment_word;
pub use copying::copied_code;
pub use examples::{contradictory_images, cut_images, linked_image, segment_edges};
pub use image::{Image, Segment};
pub use loading::load;
pub use refusal::ImageRefusal;
pub use round_trip::written_loads_back;
pub use writing::write_image;
