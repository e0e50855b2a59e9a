//! Stamps and keys of a machine taken apart.

ghost use Rattle.std.specs.Prelude.{◌≡◌, true, Some};
ghost use Rattle.ddm_tree.specs.TreeModel.Turns.Machine.{now_of};
ghost use Rattle.ddm_tree.specs.TreeModel.State.Shape.{IsShaped};
ghost use Rattle.ddm_tree.specs.TreeModel.State.Values.{root_of};
ghost use Rattle.ddm_tree.specs.TreeModel.Turns.Tree.{leaf_of_number, bus_of_number};
ghost use Rattle.ddm_tree.specs.TreeRules.Order.Places.{dirs_at};
ghost use Rattle.state_judging.specs.Judged.{is_key_of_leaf, stamps_broken};
ghost use Rattle.ddm_tree.specs.Machine.{is_part};
ghost use Rattle.ddm_tree.specs.Named.{name_of};
ghost use Rattle.ddm_tree.specs.Ready.{Leads};

use crate::below::{hart_under, stamp_under};
use crate::keys::is_key_before;
use crate::machine::path_of;
use crate::named::Named;
use crate::of_ddm_types::{BusNo, ChildNo, Key, LeafNo, Op};
use crate::parts::Parts;
use crate::stamps::stamps_fit_under;
use crate::subtree::Subtree;
use crate::turns::key_on;

impl<const WORDS: usize, C: Subtree<WORDS>> Parts<WORDS, C> {
    /// The path from the top to a leaf or a bus.
    fn leads_to(&self, name: Named) -> &[ChildNo]
        requires { is_part (name_of name) self.now ≡ true }
        ensures leads { Leads (name_of name) result.now (root_of self.now) }
        ensures shaped { IsShaped self.now }
    {
        path_of(name, &self.leaf_paths, &self.bus_paths)
    }

    /// Whether the stamps that the directory over this bus keeps are out of order.
    pub fn stamps_broken(&self, bus: BusNo) -> bool
        requires { is_part (bus_of_number bus) self.now ≡ true }
        ensures { result ≡ stamps_broken (dirs_at self.now) bus }
    {
        let path = self.leads_to(Named::Bus(bus));
        if path.is_empty() {
            false
        } else {
            !stamps_fit_under(&self.top, &self.children, bus, path)
        }
    }

    /// The key that an instruction completing now at this leaf would have.
    fn leaf_now(&self, leaf: LeafNo) -> Key
        requires { is_part (leaf_of_number leaf) self.now ≡ true }
        ensures now { Some result ≡ now_of leaf self.now }
        ensures shaped { IsShaped self.now }
    {
        let path = self.leads_to(Named::Leaf(leaf));
        let present = stamp_under(&self.top, &self.children, leaf, path);
        let hart = hart_under(&self.top, &self.children, leaf, path);
        key_on(present, path, hart.done())
    }

    /// Whether an operation's key has the path of its leaf and is less than the present key there. Where its hart has no leaf every
    /// key passes.
    pub fn key_fits(&self, op: &Op) -> bool
        ensures { result ≡ is_key_of_leaf self.now op.now }
    {
        if op.hart.0 >= self.counts.leaves {
            return true;
        }
        let now = self.leaf_now(LeafNo(op.hart.0));
        is_key_before(self.counts.depth, &now, &op.key)
    }
}
