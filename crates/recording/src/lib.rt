//! The run of a seed in which the turns that do something are recorded, on a machine of any tree.
#![tactic(auto)]

mod harts;
mod making;
pub mod of_any_machine;
pub mod of_any_runs;
pub mod of_ddm_tree;
pub mod of_operation_list;
pub mod of_seed_draws;
pub mod of_text_model;
mod progress;
mod recorder;
mod recording;
mod text;

pub use harts::put_flags;
pub use making::{Came, is_done, make_draw};
pub use progress::Progress;
pub use recorder::Recorder;
pub use recording_model::{RunEnd, SeedKind};
pub use text::record_text;
