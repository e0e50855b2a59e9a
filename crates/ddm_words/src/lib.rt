//! The words of a command: which command they say, and what the program says of itself.
#![tactic(auto)]

mod about;
mod command;
pub mod of_litmus_files;
mod words;

pub use about::{further_text, own_text};
pub use command::{
    About, Assembly, Check, Command, ImageSource, Paged, Placing, Prints, Recorded, Resumption,
    Run, Seeds, Survey, TurnSource,
};
pub use words::{command_said, first_fault};
