//! The film of turns while they are made on a machine of any tree, and the page of it.
#![tactic(auto)]

mod films;
mod heads;
mod levels;
pub mod of_any_machine;
pub mod of_ddm_types;
mod pages;
mod turns;

pub use film::of_any_runs::RunCounts;
pub use films::film_text;
pub use heads::push_head;
pub use pages::page_text;
pub use turns::{Reel, film_turn, film_turns};
