//! Why turns are busy: exactly for the first of their reasons, in the order in which they are judged. Theorems alone: there is
//! nothing to run.
#![tactic(auto)]

pub mod laws;
