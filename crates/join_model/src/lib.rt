//! The tables of the outcomes of several sets of runs, read from files and put together as one table: definitions, and what is claimed
//! of them.
#![tactic(auto)]

pub mod examples;
pub mod laws;
pub mod of_ddm_text;
pub mod of_ddm_types;
pub mod table;
