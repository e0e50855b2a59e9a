//! The sections of a state's words.

use crate::of_ddm_types::{BusNo, LeafNo};

/// A section of a checkpoint's words that is of one node.
#[derive(Clone, Copy)]
pub enum Section {
    /// The hart of this leaf.
    Hart(LeafNo),
    /// This leaf without its hart.
    Leaf(LeafNo),
    /// The directory over this bus.
    Bus(BusNo),
}
