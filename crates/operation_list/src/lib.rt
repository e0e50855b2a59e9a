//! Operations in the order in which they completed, with what several of them share kept once.
#![tactic(auto)]

mod iter;
mod list;
mod moments;
pub mod of_ddm_types;

pub use iter::Iter;
pub use list::Operations;
