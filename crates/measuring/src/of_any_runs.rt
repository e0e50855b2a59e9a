//! What crates above this one name of `any_runs`.

pub use recording::of_any_runs::{copy_from, reserve, run_spared};
