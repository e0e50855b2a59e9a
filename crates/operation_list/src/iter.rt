//! Operations one by one.

ghost use Rattle.std.specs.Prelude.{◌≡◌};
ghost use Rattle.std.specs.Iterator.{YieldsFirst, item_count};

use crate::list::Operations;
use ddm_types::Op;
use std::marker::Model;

/// Goes over operations by value, in the order in which they completed. A contract sees those that are left.
#[derive(Drop)]
pub struct Iter<'a> {
    ops: &'a Operations,
    place: usize,
}

impl<'a> Model for Iter<'a> {
    ghost use Rattle.std.specs.Prelude.{List, drop};
    ghost use Rattle.ddm_types.specs.declared.operations.Op.{Op};

    ghost Value = { List Op };

    ghost view = { λ a. drop a.place a.ops.now.items };
}

impl Operations {
    /// The operations one by one.
    pub fn iter(&self) -> Iter<'_>
        ensures { result ≡ self.now.items }
    {
        Iter {
            ops: self,
            place: 0,
        }
    }
}

impl<'a> Iterator for Iter<'a> {
    type Item = Op;

    ghost next_gives = { YieldsFirst (λ left. left) };

    ghost remaining = { item_count (λ left. left) };

    fn next(&mut self) -> Option<Op> {
        if self.place < self.ops.len() {
            let op = self.ops.get(self.place);
            self.place += 1;
            Some(op)
        } else {
            None
        }
    }
}
