//! What a turn needs on its way down.

use crate::of_ddm_types::{ChildNo, Code, Items, Turn};

/// A turn, with what it needs on the way down: the code, the items, and the path from the top to the leaf or bus that it names.
#[derive(Clone, Copy)]
pub struct TurnCall<'a> {
    pub code: &'a Code,
    pub items: &'a Items,
    pub path: &'a [ChildNo],
    pub turn: &'a Turn,
}
