//! Operations that are somewhere else.

ghost use Rattle.std.specs.Prelude.{◌≡◌, ◌<◌, length, slice_index_or};
ghost use Rattle.witness_order.specs.DdmTypes.declared.operations.Op.{Op};
ghost use Rattle.witness_order.specs.LentOps.{lent_ops};

use crate::of_ddm_types::Op;
use operation_list::Operations;

/// Operations that stand elsewhere.
#[derive(Clone, Copy)]
pub enum Lent<'a> {
    Slice(&'a [Op]),
    Kept(&'a Operations),
}

// The operation at a place of a slice. It isn't laid out where it is called: the numbers of an operation would then be read from wherever
// they lie in one or the other, place by place, which takes 70 instructions more for each operation of a list.
#[inline(never)]
fn op_in(ops: &[Op], place: usize) -> Op
    requires { place < length ops.now }
    ensures { (d : Op) → result ≡ slice_index_or ops.now place d }
{
    ops[place]
}

impl<'a> Lent<'a> {
    #[inline(always)]
    pub fn len(&self) -> usize
        ensures { result ≡ length (lent_ops self.now) }
    {
        match *self {
            Lent::Slice(ops) => ops.len(),
            Lent::Kept(ops) => ops.len(),
        }
    }

    /// The operation that so many are before.
    #[inline(always)]
    pub fn get(&self, place: usize) -> Op
        requires { place < length (lent_ops self.now) }
        ensures { (d : Op) → result ≡ slice_index_or (lent_ops self.now) place d }
    {
        match *self {
            Lent::Slice(ops) => op_in(ops, place),
            Lent::Kept(ops) => ops.get(place),
        }
    }
}
