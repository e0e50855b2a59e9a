//! The entries of down lists.

use crate::of_ddm_types::{ItemId, Stamp, TxKind, Words};
use std::marker::Model;

/// An entry of a down list: what the bus above told a directory, and when.
#[derive(Clone, Copy)]
pub struct DownEntry<const WORDS: usize> {
    pub kind: TxKind,
    pub item: ItemId,
    /// 0 where the kind brings no copy.
    pub words: Words<WORDS>,
    pub stamp: Stamp,
}

impl<const WORDS: usize> Model for DownEntry<WORDS> {
    ghost use Rattle.tree_model.specs.State.Values.{DownValue};

    ghost Value = { DownValue };

    ghost view = { λ e. record { kind = e.kind; item = e.item; words = e.words; stamp = e.stamp } };

    ghost inverse = { λ v. record { kind = v.kind; item = v.item; words = v.words; stamp = v.stamp } };
}
