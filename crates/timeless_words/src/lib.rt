//! The words of a part of a machine without its time, made from those that a checkpoint has of it.
#![tactic(auto)]

mod bus;
mod hart;
mod slices;

pub use bus::push_bus;
pub use hart::push_hart;
