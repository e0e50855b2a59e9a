//! A list of operations is served: the schedule on which a machine completes them in their order.
#![tactic(auto)]

mod adding;
mod completing;
mod effects;
pub mod of_serving_walk;
pub mod of_tree_model;
mod refusal;
mod server;
mod serving;
mod walking;

pub use refusal::ServeRefusal;
pub use server::Server;
pub use serving::serve;
