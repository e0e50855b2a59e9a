//! The machine of any tree is served: the schedule on which it completes legal operations in their order.
#![tactic(auto)]

pub mod laws;
mod looking;
mod refusal;
mod room;
mod served;
mod text;

pub use refusal::ServedRefusal;
pub use text::served_text;
