//! Stamps on the way down the tree.

ghost use Rattle.std.specs.Prelude.{◌≡◌, ◌<◌, length, map};
ghost use Rattle.ddm_tree.specs.DdmTypes.declared.keys.Stamp.{Stamp};
ghost use Rattle.ddm_tree.specs.TreeModel.State.Values.{dir_node, nodes};
ghost use Rattle.ddm_tree.specs.TreeModel.Turns.Tree.{bus_of_number};
ghost use Rattle.ddm_tree.specs.Path.{node_at, present_at};
ghost use Rattle.ddm_tree.specs.Ready.{Leads};
ghost use Rattle.ddm_tree.specs.Stamps.{node_stamps_fit};

use crate::below::next;
use crate::named::Named;
use crate::of_ddm_types::{BusNo, ChildNo};
use crate::of_item_states::Parent;
use crate::subtree::Subtree;

/// Whether the stamps are in order that the directory over a bus below a directory keeps.
pub(crate) fn stamps_fit_under<const WORDS: usize, P: Parent<WORDS>, C: Subtree<WORDS>>(
    parent: &P,
    children: &[C],
    bus: BusNo,
    path: &[ChildNo],
) -> bool
    requires leads { Leads (bus_of_number bus) path.now (dir_node (P.state parent.now) (nodes (map C.value children.now))) }
    requires on { 0 < length path.now }
    ensures { (s : Stamp) →
        result
        ≡ node_stamps_fit
        (present_at path.now s (dir_node (P.state parent.now) (nodes (map C.value children.now))))
        (node_at path.now (dir_node (P.state parent.now) (nodes (map C.value children.now)))) }
{
    let (part, rest) = next(parent, children, Named::Bus(bus), path);
    let present = parent.stamp();
    part.stamps_fit_below(bus, rest, &present)
}
