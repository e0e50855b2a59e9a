//! What files give that are accepted: trees that a machine can have, images of bytes, the turns of a seed again, and checkpoints that
//! can be read back. Theorems alone: there is nothing to run.
#![tactic(auto)]

pub mod laws;
