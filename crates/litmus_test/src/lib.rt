//! What reads a litmus test: from the bytes of a file to the test, or to the first refusal.
#![tactic(auto)]

mod locations;
mod observed;
mod reading;

pub use reading::read_test;
