//! All outcomes of a machine: its runs over the schedules of many seeds, or its recorded runs, each from the same start, and the table
//! of what they came to.
#![tactic(auto)]

mod counting;
mod ending;
mod line;
pub mod of_any_machine;
pub mod of_ddm_outside;
pub mod of_ddm_text;
pub mod of_ddm_types;
pub mod of_measuring;
pub mod of_operation_list;
pub mod of_recording;
pub mod of_report;
pub mod of_schedule_log;
pub mod of_text_model;
pub mod of_tree_config;
mod ordering;
mod runs;
mod surveying;
mod text;

pub use ending::{all_halted, put_outcome};
pub use line::OutcomeLine;
pub use runs::outcomes;
pub use surveying::survey;
pub use text::{push_survey, push_table};
