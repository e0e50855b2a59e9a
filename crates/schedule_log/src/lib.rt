//! The text of a schedule, read in pieces of any lengths and written, and the schedule of a seed.
#![tactic(auto)]

mod bus_draws;
mod bus_turns;
mod front;
pub mod laws;
pub mod of_ddm_text;
pub mod of_ddm_types;
pub mod of_tree_config;
pub mod of_tree_model;
mod parts;
mod reading;
mod refusal;
mod seeding;
mod seen;
mod spelled;
mod standing;
mod steps;
mod words;
mod writing;

pub use reading::ScheduleReader;
pub use refusal::FeedError;
pub use seeding::{SeededTurns, seeded};
pub use text_model::ScheduleRefusal;
pub use writing::{push_turn, write_schedule};
