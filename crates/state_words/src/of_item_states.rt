//! What this crate and those above it name of `item_states`.

pub use item_states::{
    Agent, DownEntry, Named, Parent, ParentList, leaf_answer, leaf_data, leaf_hold, leaf_lose,
};
