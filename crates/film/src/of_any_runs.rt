//! What crates above this one name of `any_runs`.

pub use any_runs::{RunCounts, run};
