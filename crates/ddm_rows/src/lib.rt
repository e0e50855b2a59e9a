//! Worked examples of whole commands, as tests: what is asked, of which files, and what comes of it.
#![tactic(auto)]

#[cfg(test)]
mod asked;
#[cfg(test)]
mod checkpoints;
#[cfg(test)]
mod commands;
#[cfg(test)]
mod measures;
#[cfg(test)]
mod of_ddm_outside;
#[cfg(test)]
mod of_ddm_types;
#[cfg(test)]
mod of_elf_load;
#[cfg(test)]
mod of_witness_check;
#[cfg(test)]
mod several_leaves;
#[cfg(test)]
mod surveys;
#[cfg(test)]
mod tables;
#[cfg(test)]
mod tiny_lists;
#[cfg(test)]
mod turns_that_go_on;
