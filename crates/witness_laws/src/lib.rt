//! The two ends together: the witness that a run prints is accepted by the checker.
#![tactic(auto)]

pub mod laws;
