//! What the worked examples of whole commands share: images, trees and schedules, and what comes of a command over them; and what the
//! clauses of the top call alone say of it over shelves and sinks in memory.
#![tactic(auto)]

pub mod answers;
pub mod asked;
pub mod files;
pub mod of_ddm_outside;
pub mod of_ddm_text;
pub mod of_ddm_types;
pub mod of_elf_load;
pub mod of_witness_check;
pub mod roomy_sink;

pub use ddm_cli::{Status, code};
