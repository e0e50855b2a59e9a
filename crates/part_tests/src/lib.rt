//! The calls of the parts of a leaf and of a bus, as tests: how they are used, and that those that take memory
//! succeed where there is enough.
#![tactic(auto)]

#[cfg(test)]
mod of_attraction_mem;
#[cfg(test)]
mod of_ddm_types;
#[cfg(test)]
mod of_directory;
#[cfg(test)]
mod of_item_states;
#[cfg(test)]
mod of_replacement;
#[cfg(test)]
mod of_reservations;
#[cfg(test)]
mod of_tree_model;
#[cfg(test)]
mod of_tx_queue;
#[cfg(test)]
mod with_attraction_mem;
#[cfg(test)]
mod with_code;
#[cfg(test)]
mod with_directory;
#[cfg(test)]
mod with_item_states;
#[cfg(test)]
mod with_items;
#[cfg(test)]
mod with_leaf_protocol;
#[cfg(test)]
mod with_operation_list;
#[cfg(test)]
mod with_replacement;
#[cfg(test)]
mod with_reservations;
#[cfg(test)]
mod with_split_bus;
#[cfg(test)]
mod with_top_node;
#[cfg(test)]
mod with_tx_queue;
