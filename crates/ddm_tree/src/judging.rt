//! The rules of one bus are judged.

ghost use Rattle.std.specs.Prelude.{◌≡◌, ◌||◌, ◌<◌, ◌≤◌, ◌+◌, ◌^◌, ◌++◌, ◌∷◌, [], List, All, length, map, nat_eq};
ghost use Rattle.ddm_tree.specs.TreeModel.State.Directory.{dir_note, in_set, is_eraser, is_reader, is_up_erase, note_why};
ghost use Rattle.ddm_tree.specs.TreeModel.State.Values.{Note, dir_node, nodes};
ghost use Rattle.ddm_tree.specs.TreeModel.Turns.Tree.{bus_of_number};
ghost use Rattle.ddm_tree.specs.TreeRules.Bus.Faces.{ChildFace as Face, child_face, faces_of};
ghost use Rattle.ddm_tree.specs.ItemStates.Parts.{joined_in, node_items};
ghost use Rattle.ddm_tree.specs.BusJudging.Children.{facts_among};
ghost use Rattle.ddm_tree.specs.Judging.{IsJudged, first_broken, keeps_places, keeps_rules, node_broken};
ghost use Rattle.ddm_tree.specs.Path.{node_at};
ghost use Rattle.ddm_tree.specs.Ready.{Leads};

use crate::below::next;
use crate::named::Named;
use crate::of_bus_judging::ChildrenFacts;
use crate::of_ddm_types::{BusNo, ChildNo, ItemId, PendingWhy};
use crate::of_directory::JudgedParent;
use crate::subtree::Subtree;

/// Whether the child is the first reader or one that joined it.
fn is_among(first: ChildNo, joined: u16, child: u32) -> bool
    requires { child < 16 }
    ensures { result ≡ (nat_eq child first || in_set child joined) }
{
    child == first.0 || joined >> child & 1 == 1
}

/// Whether the note joins this child's read.
fn is_reader(note: &Option<PendingWhy>, joined: u16, child: u32) -> bool
    requires { child < 16 }
    ensures { (n : Note) → note.now ≡ note_why n → joined ≡ joined_in n → result ≡ is_reader n child }
{
    match note {
        Some(PendingWhy::Local(first)) => is_among(*first, joined, child),
        Some(PendingWhy::UpRead(first)) => is_among(*first, joined, child),
        _ => false,
    }
}

/// Whether the note is this child's erase.
fn is_eraser(note: &Option<PendingWhy>, child: u32) -> bool
    ensures { (n : Note) → note.now ≡ note_why n → result ≡ is_eraser n child }
{
    match note {
        Some(PendingWhy::UpErase(first)) => child == first.0,
        _ => false,
    }
}

/// Whether the note is an erase.
fn is_up_erase(note: &Option<PendingWhy>) -> bool
    ensures { (n : Note) → note.now ≡ note_why n → result ≡ is_up_erase n }
{
    match note {
        Some(PendingWhy::UpErase(_)) => true,
        _ => false,
    }
}

/// What the rules of a bus ask of its children, with one child more.
fn with_child<const WORDS: usize, C: Subtree<WORDS>>(
    facts: &mut ChildrenFacts,
    child: &C,
    item: ItemId,
    note: &Option<PendingWhy>,
    joined: u16,
    number: u32,
)
    requires in_range { item < node_items (C.value child.now) }
    requires number { number < 16 }
    requires counted { facts.old.count + 1 < 2 ^ 32 }
    ensures { (n : Note) (cs : List Face) → note.now ≡ note_why n → joined ≡ joined_in n → length cs ≡ number →
        facts.old ≡ facts_among n cs →
        facts.new ≡ facts_among n (cs ++ child_face item (C.value child.now) ∷ []) }
{
    let reader = is_reader(note, joined, number);
    let eraser = is_eraser(note, number);
    facts.push(&child.face(item), reader, eraser);
}

/// What the rules of a bus ask of its children, of one item.
fn children_facts<const WORDS: usize, P: JudgedParent<WORDS>, C: Subtree<WORDS>>(
    parent: &P,
    children: &[C],
    item: ItemId,
) -> ChildrenFacts
    requires in_range { item < length (P.state parent.now).items }
    requires kept { All (λ n. item < node_items n) (map C.value children.now) }
    requires few { length children.now ≤ 16 }
    ensures { result ≡ facts_among (dir_note item (P.state parent.now)) (faces_of item (map C.value children.now)) }
{
    let note = parent.note(item);
    let joined = parent.joined(item);
    let mut facts = ChildrenFacts::none(is_up_erase(&note));
    for i in 0..children.len() {
        with_child(&mut facts, &children[i], item, &note, joined, i as u32);
    }
    facts
}

/// Whether an item keeps the rules of the bus below a parent.
fn keeps_rules<const WORDS: usize, P: JudgedParent<WORDS>, C: Subtree<WORDS>>(
    parent: &P,
    children: &[C],
    item: ItemId,
) -> bool
    requires in_range { item < length (P.state parent.now).items }
    requires kept { All (λ n. item < node_items n) (map C.value children.now) }
    requires few { length children.now ≤ 16 }
    ensures { result ≡ keeps_rules (P.state parent.now) (map C.value children.now) item }
{
    let facts = parent.facts(item);
    let among = children_facts(parent, children, item);
    let rules = facts.keeps_rules(&among);
    let top = facts.keeps_top(&among);
    let below = parent.bus().0 != 0;
    rules & (below | top)
}

/// Whether as many places are reserved at a parent as are kept for the items.
fn keeps_places<const WORDS: usize, P: JudgedParent<WORDS>>(parent: &P, items: u32) -> bool
    requires { length (P.state parent.now).items ≡ items }
    ensures { result ≡ keeps_places items (P.state parent.now) }
{
    let mut kept = 0;
    for item in 0..items {
        kept += parent.facts(ItemId(item)).kept_places();
    }
    parent.reserved() == kept
}

/// The least item that breaks a rule of the bus below a parent: item 0 where places aren't kept.
pub(crate) fn broken_item<const WORDS: usize, P: JudgedParent<WORDS>, C: Subtree<WORDS>>(
    parent: &P,
    children: &[C],
    items: u32,
) -> Option<ItemId>
    requires { IsJudged items (dir_node (P.state parent.now) (nodes (map C.value children.now))) }
    ensures { result ≡ first_broken items (P.state parent.now) (map C.value children.now) }
{
    if !keeps_places(parent, items) {
        return Some(ItemId(0));
    }
    for item in 0..items {
        if !keeps_rules(parent, children, ItemId(item)) {
            return Some(ItemId(item));
        }
    }
    None
}

/// The least item that breaks a rule of a bus, of a directory or below it.
pub(crate) fn broken_under<const WORDS: usize, P: JudgedParent<WORDS>, C: Subtree<WORDS>>(
    parent: &P,
    children: &[C],
    bus: BusNo,
    path: &[ChildNo],
    items: u32,
) -> Option<ItemId>
    requires judged { IsJudged items (dir_node (P.state parent.now) (nodes (map C.value children.now))) }
    requires leads { Leads (bus_of_number bus) path.now (dir_node (P.state parent.now) (nodes (map C.value children.now))) }
    ensures { result ≡ node_broken items (node_at path.now (dir_node (P.state parent.now) (nodes (map C.value children.now)))) }
{
    if path.is_empty() {
        broken_item(parent, children, items)
    } else {
        let (part, rest) = next(parent, children, Named::Bus(bus), path);
        part.broken_below(bus, rest, items)
    }
}
