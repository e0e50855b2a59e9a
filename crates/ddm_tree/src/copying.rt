//! A machine, and each part of it, becomes a copy of another one.

ghost use Rattle.std.specs.Prelude.{◌≡◌, ℕ, ◌+◌, ◌-◌, ◌<◌, ◌≤◌, ◌^◌, length, map, min, slice_set};
ghost use Rattle.ddm_tree.specs.TreeModel.State.Values.{dir_node, nodes};
ghost use Rattle.ddm_tree.specs.TreeModel.Turns.Children.{child_at};
ghost use Rattle.ddm_tree.specs.Copying.{AreAlike, CanCopy, copied};

use crate::idle::forget_all;
use crate::machine::Machine;
use crate::quiet::forget_quiet;
use crate::subtree::Subtree;
use leaf_protocol::Leaf;

/// A part of the tree that can become a copy of another one.
pub trait CopyFrom<const WORDS: usize>: Subtree<WORDS> {
    /// Becomes a copy of another part with the same nodes and sizes. It takes no memory.
    fn copy_from(&mut self, other: &Self)
        requires { AreAlike (Self.value self.old) (Self.value other.now) }
        ensures { Self.value self.new ≡ Self.value other.now };
}

impl<const WAYS: usize, const WORDS: usize> CopyFrom<WORDS> for Leaf<WAYS, WORDS> {
    fn copy_from(&mut self, other: &Self) {
        Leaf::copy_from(self, other);
    }
}

/// A child becomes a copy of the other one with its number.
fn copy_child<const WORDS: usize, C: CopyFrom<WORDS>>(
    children: &mut [C],
    others: &[C],
    number: usize,
)
    requires there { number < length children.old }
    requires other { number < length others.now }
    requires alike { AreAlike (child_at number (map C.value children.old)) (child_at number (map C.value others.now)) }
    ensures { map C.value children.new ≡ slice_set (map C.value children.old) number (child_at number (map C.value others.now)) }
{
    children[number].copy_from(&others[number]);
}

/// The children of a directory become copies of those of another one.
pub(crate) fn copy_children<const WORDS: usize, C: CopyFrom<WORDS>>(
    children: &mut [C],
    others: &[C],
)
    requires alike { (number : ℕ) → number < length others.now →
        AreAlike (child_at number (map C.value children.old)) (child_at number (map C.value others.now)) }
    requires as_many { length children.old ≡ length others.now }
    ensures { map C.value children.new ≡ map C.value others.now }
{
    for number in 0..others.len() {
        copy_child(children, others, number);
    }
}

/// How many operations can be taken without memory, after so many others of them stand there in place of these.
fn room_left(spare: u32, here: usize, others: usize) -> u32
    requires fits { here + spare < 2 ^ 64 }
    requires room { others ≤ here + spare }
    ensures { result ≡ min 4294967295 (here + spare - others) }
{
    let room = here + spare as usize - others;
    room.min(u32::MAX as usize) as u32
}

impl<const WORDS: usize, C: CopyFrom<WORDS>> Machine<WORDS, C> {
    /// Becomes a copy of another machine of the same tree, code and items. It takes no memory, and keeps what it has for
    /// operations.
    pub fn copy_from(&mut self, other: &Self)
        requires { CanCopy self.old other.now }
        ensures { self.new ≡ copied self.old other.now }
    {
        self.spare = room_left(self.spare, self.ops.len(), other.ops.len());
        self.top.copy_from(&other.top);
        copy_children(&mut self.children, &other.children);
        self.ops.copy_from(&other.ops);
        self.traffic.copy_from_slice(&other.traffic);
        self.turns = other.turns;
        forget_all(&mut self.idle);
        forget_quiet(&mut self.quiet);
    }
}
