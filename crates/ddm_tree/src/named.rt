//! What a part of the tree is named by.

use crate::of_ddm_types::{BusNo, LeafNo};

/// The leaf, or the directory over the bus, of this number.
#[derive(Clone, Copy)]
pub enum Named {
    Leaf(LeafNo),
    Bus(BusNo),
}
