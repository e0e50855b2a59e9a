//! A section of words is read into a part of the tree.

ghost use Rattle.std.specs.Prelude.{◌≡◌, ◌<◌, ◌≤◌, ◌^◌, true, length, map, IfOk};
ghost use Rattle.ddm_tree.specs.TreeModel.State.Shape.{skeleton, widths_fit};
ghost use Rattle.ddm_tree.specs.TreeModel.State.Values.{dir_node, nodes};
ghost use Rattle.ddm_tree.specs.TreeModel.Turns.Children.{child_at};
ghost use Rattle.ddm_tree.specs.ReadBack.{ChildRead, PartRead, section_name};
ghost use Rattle.ddm_tree.specs.Ready.{Leads};

use crate::of_ddm_types::ChildNo;
use crate::of_item_states::Parent;
use crate::of_state_reading::StateRefusal;
use crate::section::Section;
use crate::subtree::Subtree;

/// Reads a section into a child, or into a part below it.
fn read_child<const WORDS: usize, C: Subtree<WORDS>>(
    children: &mut [C],
    c: ChildNo,
    section: Section,
    path: &[ChildNo],
    words: &[u32],
    from: u32,
) -> Result<u32, StateRefusal>
    requires few { length words.now < 2 ^ 32 }
    requires inside { from ≤ length words.now }
    requires child { c < length children.old }
    requires buses { widths_fit (skeleton (child_at c (map C.value children.old))) ≡ true }
    requires leads { Leads (section_name section) path.now (child_at c (map C.value children.old)) }
    ensures read { ChildRead section c path.now words.now from (map C.value children.old) (map C.value children.new) result }
    ensures inside { IfOk result (λ at. at ≤ length words.now) }
{
    children[c.0 as usize].read_below(section, path, words, from)
}

/// Reads a section into a leaf or a directory below a directory.
pub(crate) fn read_under<const WORDS: usize, P: Parent<WORDS>, C: Subtree<WORDS>>(
    parent: &P,
    children: &mut [C],
    section: Section,
    path: &[ChildNo],
    words: &[u32],
    from: u32,
) -> Result<u32, StateRefusal>
    requires few { length words.now < 2 ^ 32 }
    requires inside { from ≤ length words.now }
    requires buses { widths_fit (skeleton (dir_node (P.state parent.now) (nodes (map C.value children.old)))) ≡ true }
    requires leads { Leads (section_name section) path.now (dir_node (P.state parent.now) (nodes (map C.value children.old))) }
    requires on { 0 < length path.now }
    ensures read { PartRead section path.now words.now from
        (dir_node (P.state parent.now) (nodes (map C.value children.old)))
        (dir_node (P.state parent.now) (nodes (map C.value children.new))) result }
    ensures inside { IfOk result (λ at. at ≤ length words.now) }
{
    match path.split_first() {
        Some((child, rest)) => read_child(children, *child, section, rest, words, from),
        None => unreachable!(),
    }
}
