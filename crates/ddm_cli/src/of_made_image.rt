//! What this crate and those above it name of `made_image`.

pub use run_engine::of_made_image::make_image;
