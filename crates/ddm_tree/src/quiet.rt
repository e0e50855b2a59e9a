//! Which turns are known to change nothing.

ghost use Rattle.std.specs.Prelude.{◌≡◌, ◌<◌, ◌^◌, ◌⊎◌, ⊤, [], ◌∷◌, List, ℕ, false, true, IfOk, IfSome, Some, length, map, vec_items};
ghost use Rattle.ddm_tree.specs.DdmTypes.declared.answers.TurnAnswer.{TurnAnswer as Answer};
ghost use Rattle.ddm_tree.specs.TreeModel.declared.BusTurn.{BusTurn};
ghost use Rattle.ddm_tree.specs.TreeModel.State.Values.{DirValue, Node, Nodes, children as children_of, dir_node, nodes};
ghost use Rattle.ddm_tree.specs.TreeModel.Turns.Children.{child_at};
ghost use Rattle.ddm_tree.specs.TreeModel.Turns.Machine.{named_by};
ghost use Rattle.ddm_tree.specs.Machine.{has_path, listed_path};
ghost use Rattle.ddm_tree.specs.Quiet.{AreApart, AreLearned, AreLearnedBelow, AreNear, IsBlank, IsHartNoted, IsNear};
ghost use Rattle.ddm_tree.specs.Quiet.{IsTouched, IsTouchedBy, KeepsHarts, OfChild, OfNamed, OfTwo, busy_if};
ghost use Rattle.ddm_tree.specs.Quiet.{known_as, may_be_child, number_of, quiet_if, touches_child, turn_column};
ghost use Rattle.ddm_tree.specs.Quiet.{turn_row};

use crate::machine::{named, path_of};
use crate::of_ddm_types::{ChildNo, NoMemory, Place, Turn, TurnAnswer};
use crate::of_item_states::{Agent, Parent};
use crate::subtree::Subtree;
use std::alloc::Global;
use top_node::TopState;

/// What is known of a turn: that it changes nothing, and whether it is counted as a busy one, or none of this.
#[derive(Clone, Copy)]
pub enum Known {
    Nothing,
    Quiet,
    Busy,
}

/// What is known under a number, of the turns of the bus and of the hart that have it, in rows of 16 places: a row for the hart and one for
/// Down, of which the first place alone counts, and one each for requests, replies and copies that leave, with a place for each child of
/// the bus. Behind these five rows nothing is put: the address of one of 128 bytes is a shift.
pub type Quiet = [Known; 128];

/// Nothing is known.
const NOTHING: Quiet = [Known::Nothing; 128];

#[inline(always)]
fn number_of(turn: Turn) -> usize
    ensures { result ≡ number_of turn }
{
    match turn {
        Turn::Hart { hart, .. } => hart.0 as usize,
        Turn::Down { bus } => bus.0 as usize,
        Turn::Request { bus, .. } => bus.0 as usize,
        Turn::Reply { bus, .. } => bus.0 as usize,
        Turn::Leave { bus, .. } => bus.0 as usize,
    }
}

#[inline(always)]
fn row_of(turn: Turn) -> usize
    ensures row { result ≡ turn_row turn }
    ensures few { result < 5 }
{
    match turn {
        Turn::Hart { .. } => 0,
        Turn::Down { .. } => 1,
        Turn::Request { .. } => 2,
        Turn::Reply { .. } => 3,
        Turn::Leave { .. } => 4,
    }
}

#[inline(always)]
fn column_of(turn: Turn) -> usize
    ensures { result ≡ turn_column turn }
{
    match turn {
        Turn::Hart { .. } => 0,
        Turn::Down { .. } => 0,
        Turn::Request { child, .. } => child.0 as usize,
        Turn::Reply { child, .. } => child.0 as usize,
        Turn::Leave { child, .. } => child.0 as usize,
    }
}

/// Whether a turn of which this is known is busy, if it is known to change nothing. No branch depends on whether it is.
#[inline(always)]
fn busy_if(known: Known) -> Option<bool>
    ensures { result ≡ busy_if known }
{
    let busy = matches!(known, Known::Busy);
    match known {
        Known::Nothing => None,
        Known::Quiet | Known::Busy => Some(busy),
    }
}

/// The same of a turn of the machine. No branch depends on what turn it is.
#[inline(always)]
pub(crate) fn known_as(known: &[Quiet], turn: &Turn) -> Option<bool>
    requires { turn_column turn.now < 16 }
    ensures { result ≡ known_as turn.now known.now }
{
    let number = number_of(*turn);
    let row = row_of(*turn);
    let column = column_of(*turn);
    match known.get(number) {
        Some(quiet) => busy_if(quiet[row * 16 + column]),
        None => None,
    }
}

/// What is known of a turn of a bus that finds nothing, or doesn't.
#[inline(always)]
fn quiet_if(nothing: bool) -> Known
    ensures { result ≡ quiet_if nothing }
{
    if nothing {
        Known::Quiet
    } else {
        Known::Nothing
    }
}

/// Learns whether nothing is on its way down to a bus.
#[inline(always)]
fn put_down<const WORDS: usize, P: Parent<WORDS>>(quiet: &mut Quiet, parent: &P)
    requires fits { WORDS < 2 ^ 32 }
    ensures { (ns : Nodes) → AreLearned (λ t. t ≡ BusTurn.Down) (dir_node (P.state parent.now) ns) quiet.old quiet.new }
{
    quiet[16] = quiet_if(parent.first_down().is_none());
}

/// Learns what a child shows its bus.
#[inline(always)]
fn put_child<const WORDS: usize, C: Agent<WORDS>>(quiet: &mut Quiet, place: usize, child: &C)
    requires fits { WORDS < 2 ^ 32 }
    requires place { place < 16 }
    ensures { (d : DirValue) (ns : Nodes) → child_at place (children_of ns) ≡ C.value child.now →
        AreLearned (OfChild place) (dir_node d ns) quiet.old quiet.new }
{
    quiet[2 * 16 + place] = quiet_if(child.first_request().is_none());
    quiet[3 * 16 + place] = quiet_if(child.first_reply().is_none());
    quiet[4 * 16 + place] = quiet_if(child.leaving(0).is_none());
}

/// Nothing is known of the turns of a bus.
#[inline(always)]
fn forget_bus(quiet: &mut Quiet)
    ensures { (n : Node) → AreLearned (λ t. ⊤) n quiet.old quiet.new }
{
    for place in 16..80 {
        quiet[place] = Known::Nothing;
    }
}

/// Learns what the turns of a bus find.
#[inline(always)]
fn put_bus<const WORDS: usize, P: Parent<WORDS>, C: Agent<WORDS>>(
    quiet: &mut Quiet,
    parent: &P,
    children: &[C],
)
    requires fits { WORDS < 2 ^ 32 }
    ensures { AreLearned (λ t. ⊤) (dir_node (P.state parent.now) (nodes (map C.value children.now))) quiet.old quiet.new }
{
    forget_bus(quiet);
    put_down(quiet, parent);
    for c in 0..children.len().min(16) {
        put_child(quiet, c, &children[c]);
    }
}

/// The same of the bus below a directory, in the place of its number.
#[inline(always)]
fn learn_bus<const WORDS: usize, P: Parent<WORDS>, C: Agent<WORDS>>(
    known: &mut [Quiet],
    parent: &P,
    children: &[C],
)
    requires fits { WORDS < 2 ^ 32 }
    ensures learned { AreLearnedBelow (λ q t. q ≡ [])
        (dir_node (P.state parent.now) (nodes (map C.value children.now))) known.old known.new }
    ensures harts { KeepsHarts known.old known.new }
{
    let bus = parent.bus().0 as usize;
    if bus < known.len() {
        put_bus(&mut known[bus], parent, children);
    }
}

/// Learns what the child of this number shows its bus; where there is none, nothing is known of the bus.
#[inline(always)]
fn put_numbered<const WORDS: usize, C: Agent<WORDS>>(
    quiet: &mut Quiet,
    children: &[C],
    place: usize,
)
    requires fits { WORDS < 2 ^ 32 }
    ensures { (d : DirValue) → AreLearned (OfChild place) (dir_node d (nodes (map C.value children.now))) quiet.old quiet.new }
{
    if place < 16 && place < children.len() {
        put_child(quiet, place, &children[place]);
    } else {
        forget_bus(quiet);
    }
}

/// The same of a bus in the place of its number.
#[inline(always)]
fn learn_child<const WORDS: usize, P: Parent<WORDS>, C: Agent<WORDS>>(
    known: &mut [Quiet],
    parent: &P,
    children: &[C],
    place: usize,
)
    requires fits { WORDS < 2 ^ 32 }
    ensures learned { AreLearnedBelow (λ q t. (q ≡ []) × OfChild place t)
        (dir_node (P.state parent.now) (nodes (map C.value children.now))) known.old known.new }
    ensures harts { KeepsHarts known.old known.new }
{
    let bus = parent.bus().0 as usize;
    if bus < known.len() {
        put_numbered(&mut known[bus], children, place);
    }
}

/// Learns what the child of this number shows its bus, if there is a number.
#[inline(always)]
fn put_named<const WORDS: usize, C: Agent<WORDS>>(
    quiet: &mut Quiet,
    children: &[C],
    named: Option<usize>,
)
    requires fits { WORDS < 2 ^ 32 }
    ensures { (d : DirValue) → AreLearned (OfNamed named) (dir_node d (nodes (map C.value children.now))) quiet.old quiet.new }
{
    if let Some(place) = named {
        put_numbered(quiet, children, place);
    }
}

/// Learns what comes down to a bus and what two children show it.
#[inline(always)]
fn put_two<const WORDS: usize, P: Parent<WORDS>, C: Agent<WORDS>>(
    quiet: &mut Quiet,
    parent: &P,
    children: &[C],
    first: Option<usize>,
    second: Option<usize>,
)
    requires fits { WORDS < 2 ^ 32 }
    ensures { AreLearned (OfTwo first second) (dir_node (P.state parent.now) (nodes (map C.value children.now))) quiet.old quiet.new }
{
    put_down(quiet, parent);
    put_named(quiet, children, first);
    put_named(quiet, children, second);
}

/// The same of the bus below a directory, in the place of its number.
#[inline(always)]
fn learn_two<const WORDS: usize, P: Parent<WORDS>, C: Agent<WORDS>>(
    known: &mut [Quiet],
    parent: &P,
    children: &[C],
    first: Option<usize>,
    second: Option<usize>,
)
    requires fits { WORDS < 2 ^ 32 }
    ensures learned { AreLearnedBelow (λ q t. (q ≡ []) × OfTwo first second t)
        (dir_node (P.state parent.now) (nodes (map C.value children.now))) known.old known.new }
    ensures harts { KeepsHarts known.old known.new }
{
    let bus = parent.bus().0 as usize;
    if bus < known.len() {
        put_two(&mut known[bus], parent, children, first, second);
    }
}

/// The child that this place of a grant is, if it is one; None where it may be several.
#[inline(always)]
fn one_child(place: Place) -> Option<Option<usize>>
    ensures { IfSome result (λ one. (c : ℕ) → may_be_child c place ≡ true → one ≡ Some c) }
{
    match place {
        Place::Child(child) => Some(Some(child.0 as usize)),
        Place::Parent | Place::Parking | Place::Gone | Place::Joined => Some(None),
        Place::All | Place::Readers => None,
    }
}

/// The children that a turn touched, where it granted something and these are two at most.
#[inline(always)]
pub(crate) fn two_touched(answer: &TurnAnswer) -> Option<(Option<usize>, Option<usize>)>
    ensures { IfSome result (λ two. (c : ℕ) → touches_child c answer.now ≡ true → (two.0 ≡ Some c) ⊎ (two.1 ≡ Some c)) }
{
    match answer {
        TurnAnswer::Granted(entry) => Some((one_child(entry.source)?, one_child(entry.taker)?)),
        _ => None,
    }
}

/// Learns whether nothing is on its way down to the bus below a directory.
#[inline(always)]
pub(crate) fn learn_down_of<const WORDS: usize, P: Parent<WORDS>>(known: &mut [Quiet], parent: &P)
    requires fits { WORDS < 2 ^ 32 }
    ensures learned { (ns : Nodes) →
        AreLearnedBelow (λ q t. (q ≡ []) × (t ≡ BusTurn.Down)) (dir_node (P.state parent.now) ns) known.old
        known.new }
    ensures harts { KeepsHarts known.old known.new }
{
    let bus = parent.bus().0 as usize;
    if bus < known.len() {
        put_down(&mut known[bus], parent);
    }
}

/// Learns whether nothing is on its way down to the buses of these children.
#[inline(always)]
fn learn_downs<const WORDS: usize, C: Subtree<WORDS>>(known: &mut [Quiet], children: &[C])
    requires fits { WORDS < 2 ^ 32 }
    ensures learned { (d : DirValue) →
        AreLearnedBelow (λ q t. ((c : ℕ) × (q ≡ c ∷ [])) × (t ≡ BusTurn.Down))
        (dir_node d (nodes (map C.value children.now))) known.old known.new }
    ensures harts { KeepsHarts known.old known.new }
{
    for child in children {
        child.learn_down(known);
    }
}

/// The same of the child of this number, if there is a number and such a child.
#[inline(always)]
fn learn_down_named<const WORDS: usize, C: Subtree<WORDS>>(
    known: &mut [Quiet],
    children: &[C],
    named: Option<usize>,
)
    requires fits { WORDS < 2 ^ 32 }
    ensures learned { (d : DirValue) →
        AreLearnedBelow (λ q t. ((c : ℕ) × (named ≡ Some c) × (q ≡ c ∷ [])) × (t ≡ BusTurn.Down))
        (dir_node d (nodes (map C.value children.now))) known.old known.new }
    ensures harts { KeepsHarts known.old known.new }
{
    if let Some(place) = named {
        if place < children.len() {
            children[place].learn_down(known);
        }
    }
}

/// Learns anew all that the bus below a directory finds, and what comes down to the buses below that.
#[inline(always)]
fn learn_all<const WORDS: usize, P: Parent<WORDS>, C: Subtree<WORDS>>(
    known: &mut [Quiet],
    parent: &P,
    children: &[C],
)
    requires fits { WORDS < 2 ^ 32 }
    ensures learned { (a : Answer) →
        AreLearnedBelow (IsTouched a []) (dir_node (P.state parent.now) (nodes (map C.value children.now)))
        known.old known.new }
    ensures harts { KeepsHarts known.old known.new }
{
    learn_bus(known, parent, children);
    learn_downs(known, children);
}

/// The same, as far as a turn of the bus that answers so may have changed it.
#[inline(never)]
fn learn_touched<const WORDS: usize, P: Parent<WORDS>, C: Subtree<WORDS>>(
    known: &mut [Quiet],
    parent: &P,
    children: &[C],
    answer: &TurnAnswer,
)
    requires fits { WORDS < 2 ^ 32 }
    ensures learned { AreLearnedBelow (IsTouched answer.now [])
        (dir_node (P.state parent.now) (nodes (map C.value children.now))) known.old known.new }
    ensures harts { KeepsHarts known.old known.new }
{
    match two_touched(answer) {
        Some((first, second)) => {
            learn_two(known, parent, children, first, second);
            learn_down_named(known, children, first);
            learn_down_named(known, children, second);
        }
        None => learn_all(known, parent, children),
    }
}

/// The same. Of two children all is learned as fast as it is told which of them were touched.
#[inline(always)]
fn learn_here<const WORDS: usize, P: Parent<WORDS>, C: Subtree<WORDS>>(
    known: &mut [Quiet],
    parent: &P,
    children: &[C],
    answer: &TurnAnswer,
)
    requires fits { WORDS < 2 ^ 32 }
    ensures learned { AreLearnedBelow (IsTouched answer.now [])
        (dir_node (P.state parent.now) (nodes (map C.value children.now))) known.old known.new }
    ensures harts { KeepsHarts known.old known.new }
{
    if children.len() > 2 {
        learn_touched(known, parent, children, answer);
    } else {
        learn_all(known, parent, children);
    }
}

/// Learns anew what the buses below a directory find, as far as a turn of the leaf or bus at the end of this path that answers so may
/// have changed it.
#[inline(always)]
pub(crate) fn learn_under<const WORDS: usize, P: Parent<WORDS>, C: Subtree<WORDS>>(
    known: &mut [Quiet],
    parent: &P,
    children: &[C],
    path: &[ChildNo],
    answer: &TurnAnswer,
)
    requires fits { WORDS < 2 ^ 32 }
    ensures learned { AreLearnedBelow (IsTouched answer.now path.now)
        (dir_node (P.state parent.now) (nodes (map C.value children.now))) known.old known.new }
    ensures harts { KeepsHarts known.old known.new }
{
    let Some((child, rest)) = path.split_first() else {
        learn_here(known, parent, children, answer);
        return;
    };
    let place = child.0 as usize;
    if rest.is_empty() {
        learn_child(known, parent, children, place);
    }
    if place < children.len() {
        children[place].learn_below(known, rest, answer);
    }
}

/// Whether one of the two may be the other's parent, or both are the same. No branch depends on where they differ.
fn is_near(path: &[ChildNo], other: &[ChildNo]) -> bool
    ensures { result ≡ false → AreApart path.now other.now }
{
    if other.len() + 1 < path.len() || path.len() + 1 < other.len() {
        return false;
    }
    let mut same = true;
    for level in 0..path.len().min(other.len()) {
        let (there, here) = (path[level], other[level]);
        same = same & (there.0 == here.0);
    }
    same
}

/// The numbers of those of the paths that may be this one, or the parent's or a child's of what it leads to.
fn paths_near(
    alloc: Global,
    path: &[ChildNo],
    others: &[Vec<ChildNo>],
) -> Result<Vec<usize>, NoMemory>
    ensures { IfOk result (λ near. IsNear path.now near.items (map vec_items others.now)) }
{
    let mut near = Vec::new(alloc);
    for number in 0..others.len() {
        if is_near(&others[number], path) {
            near.push(number)?;
        }
    }
    Ok(near)
}

/// The same of each of these paths.
pub(crate) fn near_lists(
    alloc: Global,
    paths: &[Vec<ChildNo>],
    others: &[Vec<ChildNo>],
) -> Result<Vec<Vec<usize>>, NoMemory>
    ensures { IfOk result (λ nears. AreNear (map vec_items nears.items) (map vec_items paths.now) (map vec_items others.now)) }
{
    let mut nears = Vec::with_capacity(alloc, paths.len())?;
    for number in 0..paths.len() {
        nears.push(paths_near(alloc, &paths[number], others)?)?;
    }
    Ok(nears)
}

/// The same of all buses of the tree.
#[inline(never)]
fn learn_at<const WORDS: usize, C: Subtree<WORDS>>(
    known: &mut [Quiet],
    top: &TopState<WORDS>,
    children: &[C],
    path: &[ChildNo],
    answer: &TurnAnswer,
)
    requires fits { WORDS < 2 ^ 32 }
    ensures learned { AreLearnedBelow (IsTouched answer.now path.now)
        (dir_node top.now (nodes (map C.value children.now))) known.old known.new }
    ensures harts { KeepsHarts known.old known.new }
{
    learn_under(known, top, children, path, answer);
}

/// Learns what a turn may have changed of what the buses find, or that it found nothing.
pub(crate) fn note_buses<const WORDS: usize, C: Subtree<WORDS>>(
    known: &mut [Quiet],
    top: &TopState<WORDS>,
    children: &[C],
    leaf_paths: &[Vec<ChildNo>],
    bus_paths: &[Vec<ChildNo>],
    turn: &Turn,
    answer: &TurnAnswer,
)
    requires fits { WORDS < 2 ^ 32 }
    requires listed { has_path (named_by turn.now) (length leaf_paths.now) (length bus_paths.now) }
    ensures learned { (path : List ℕ) →
        listed_path (named_by turn.now) (map vec_items leaf_paths.now) (map vec_items bus_paths.now) ≡ Some path →
        AreLearnedBelow (IsTouchedBy answer.now path) (dir_node top.now (nodes (map C.value children.now)))
        known.old known.new }
    ensures harts { KeepsHarts known.old known.new }
{
    match answer {
        TurnAnswer::Granted(_) | TurnAnswer::Issued(_, _) | TurnAnswer::Empty => {
            let path = path_of(named(turn), leaf_paths, bus_paths);
            learn_at(known, top, children, path, answer);
        }
        TurnAnswer::Retired(_)
        | TurnAnswer::Waiting(_)
        | TurnAnswer::Halted(_)
        | TurnAnswer::Busy(_) => {}
    }
}

/// What is known of the turns of a hart.
fn hart_known(busy: Option<bool>) -> Known
    ensures { busy_if result ≡ busy }
{
    match busy {
        None => Known::Nothing,
        Some(false) => Known::Quiet,
        Some(true) => Known::Busy,
    }
}

/// Remembers of a hart whether its turns are busy, if it is idle.
pub(crate) fn note_hart(known: &mut [Quiet], hart: usize, busy: Option<bool>)
    ensures { IsHartNoted hart busy known.old known.new }
{
    if hart < known.len() {
        known[hart][0] = hart_known(busy);
    }
}

/// A place for each of so many numbers, with nothing remembered.
pub(crate) fn nothing_quiet(alloc: Global, count: u32) -> Result<Vec<Quiet>, NoMemory>
    ensures { IfOk result (λ known. IsBlank known.items) }
{
    let mut known = vec![in alloc; NOTHING; count as usize]?;
    forget_quiet(&mut known);
    Ok(known)
}

/// Forgets all that is remembered.
pub(crate) fn forget_quiet(known: &mut [Quiet])
    ensures { IsBlank known.new }
{
    for place in 0..known.len() {
        known[place] = NOTHING;
    }
}
