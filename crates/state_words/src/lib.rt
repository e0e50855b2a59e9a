//! The words of a state: how a checkpoint spells a hart, a leaf, a directory, a bus and a whole machine; and the writing of what
//! they are made of.
#![tactic(auto)]

mod numbers;
pub mod of_ddm_types;
pub mod of_item_states;
pub mod of_tree_model;
mod spelled;

pub use numbers::{
    effect_words, flag_number, halt_words, hold_number, key_words, reserved_word, slot_number,
    stamp_words, state_number, traffic_words,
};
pub use spelled::{Spelled, push_words};

/// What a checkpoint says of its machine: how many leaves, buses and items there are, how many words an item has, and how many ways a
/// set of a leaf.
#[derive(Clone, Copy, Debug, PartialEq, Eq)]
pub struct MachineSizes {
    pub leaves: u32,
    pub buses: u32,
    pub items: u32,
    pub item_words: u32,
    pub ways: u32,
}
