//! The run of a seed that is measured, on a machine of any tree: what its turns answer is counted as it goes, in memory
//! that doesn't grow with their number.
#![tactic(auto)]

mod counting;
mod lengths;
mod lines;
mod measured;
mod measuring;
pub mod of_any_machine;
pub mod of_any_runs;
pub mod of_ddm_outside;
pub mod of_operation_list;
pub mod of_recording;
pub mod of_report;
pub mod of_text_model;
mod starting;
mod tally;
mod text;

pub use measured::measure_text;
