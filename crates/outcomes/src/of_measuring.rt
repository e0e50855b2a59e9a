//! What crates above this one name of `measuring`.

pub use measuring::measure_text;
