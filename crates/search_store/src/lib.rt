//! What a search keeps: the words of the states that it knows, by number, and the turns that led to each.
#![tactic(auto)]

mod known;
mod schedules;

pub use known::KnownStates;
pub use schedules::Schedules;
