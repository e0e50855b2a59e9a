//! The protocol as a table: the rows by which a bus grants or refuses, a record each, and the states of a leaf's entry,
//! a row each. Theorems say that the machine does what the table says; there is nothing to run.
#![tactic(auto)]

pub mod laws;
