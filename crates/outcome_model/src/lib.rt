//! What the runs of a machine over the schedules of many seeds come to, as definitions: the outcome of a run, the table of all
//! outcomes and its text. And what is claimed of them.
#![tactic(auto)]

pub mod examples;
pub mod laws;
pub mod of_ddm_text;
pub mod of_ddm_types;
