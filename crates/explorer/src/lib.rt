//! The search of a machine for all its outcomes, over whatever goes through its states: each state is kept once, with the turns that led
//! to it.
#![tactic(auto)]

mod line;
mod looking;
mod losing;
pub mod of_ddm_types;
mod progress;
mod states;

pub use line::Line;
pub use looking::search;
pub use losing::lost_states;
pub use progress::Search;
pub use states::States;
