//! A search as text: the table of its outcomes, jams and lost states, and the schedule of a line of it.
#![tactic(auto)]

mod finding;
mod lines;
mod reaching;
mod table;

pub use reaching::reach_text;
pub use table::explore_text;
