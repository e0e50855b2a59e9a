//! The page that a film is put into, as constants that are made from viewer/page.html.
#![tactic(auto)]

pub mod of_ddm_types;
mod page;
mod pushing;

pub use pushing::{push_back, push_front};
