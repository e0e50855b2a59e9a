//! The calls that read, judge and put out files and texts, as tests: how they are used, and that those that take memory
//! succeed where there is enough.
#![tactic(auto)]

#[cfg(test)]
mod of_ddm_text;
#[cfg(test)]
mod of_ddm_types;
#[cfg(test)]
mod of_tree_config;
#[cfg(test)]
mod with_ddm_outside;
#[cfg(test)]
mod with_ddm_text;
#[cfg(test)]
mod with_elf_load;
#[cfg(test)]
mod with_made_image;
#[cfg(test)]
mod with_schedule_log;
#[cfg(test)]
mod with_tree_config;
#[cfg(test)]
mod with_witness_check;
#[cfg(test)]
mod with_witness_order;
