//! What this crate and those above it name of `litmus_files`.

pub use litmus_files::{
    AssembledTest, Fault, FileRefusal, ImageRefusal, Places, Runs, TestRefusal, Unassembled,
    assembled, read_places,
};
