//! Tables of outcomes are read, put together and written.
#![tactic(auto)]

mod line;
mod lines;
pub mod of_ddm_text;
pub mod of_ddm_types;
pub mod of_join_model;
mod ordering;
mod reading;
mod summing;
mod text;
mod words;

pub use line::OutcomeLine;
pub use reading::{ReadTable, TableError, read_table};
pub use summing::TableSum;
