//! The calls of a machine of one bus, as tests: how they are used, and that those that take memory succeed where there is enough.
#![tactic(auto)]

#[cfg(test)]
mod of_ddm_types;
#[cfg(test)]
mod of_leaf_protocol;
#[cfg(test)]
mod of_tree_config;
#[cfg(test)]
mod one_bus;
#[cfg(test)]
mod with_checkpoint;
#[cfg(test)]
mod with_ddm_tree;
#[cfg(test)]
mod with_inspector;
#[cfg(test)]
mod with_report;
