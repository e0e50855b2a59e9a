//! What this crate and those above it name of `made_image`.

pub use made_image::make_image;
