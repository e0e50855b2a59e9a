//! Which harts are known to be idle, and why.

ghost use Rattle.std.specs.Prelude.{◌≡◌, ◌⊎◌, ℕ, [], ◌∷◌, ◌++◌, Some, None, false, IfOk, IfSome, length, map};
ghost use Rattle.std.specs.Prelude.{slice_get, slice_set, vec_items};
ghost use Rattle.ddm_tree.specs.TreeModel.declared.TreeChild.{TreeChild};
ghost use Rattle.ddm_tree.specs.TreeModel.State.Values.{DirValue, dir_node, nodes};
ghost use Rattle.ddm_tree.specs.TreeModel.Turns.Machine.{named_by};
ghost use Rattle.ddm_tree.specs.TreeModel.Turns.Tree.{bus_of_number, leaf_of_number};
ghost use Rattle.ddm_tree.specs.Idle.{AreNoted, IsNoChild, IsNothing, AreSeen, NoneChanges, IsLooked, IsLookedAfter};
ghost use Rattle.ddm_tree.specs.Idle.{IsSeen, answered_by, idle_answer, idle_for, idle_there, idle_told, may_change};
ghost use Rattle.ddm_tree.specs.Idle.{node_rests, rests_by, with_idle};
ghost use Rattle.ddm_tree.specs.Path.{node_at};
ghost use Rattle.ddm_tree.specs.Quiet.{HartsAgree, IsNoneOf, KeepsBuses, idle_as};
ghost use Rattle.ddm_tree.specs.Ready.{Leads};

use crate::machine::named;
use crate::named::Named;
use crate::of_ddm_types::{
    BusyCause, ChildNo, HaltCause, ItemId, LeafNo, LogEntry, NoMemory, Turn, TurnAnswer, TxKind,
};
use crate::of_tree_model::TreeChild;
use crate::quiet::{Quiet, note_hart, two_touched};
use crate::subtree::Subtree;
use std::alloc::Global;
use std::marker::Model;

/// Why a turn of a hart changes nothing, and none will before its bus tells its leaf something.
#[derive(Clone, Copy)]
pub enum Idle {
    /// An entry of this item waits for a transaction.
    Waits(ItemId),
    /// The buffer of this leaf has no place.
    BufferFull(LeafNo),
    /// The hart has halted.
    Halted(HaltCause),
}

/// For each leaf why its hart is idle, where that is known.
#[derive(Drop)]
pub(crate) struct IdleHarts {
    known: Vec<Option<Idle>>,
    /// Whether one may be known whose leaf's buffer has no place: after a grant that answers nobody, only such a one is to be looked at.
    any_full: bool,
}

impl Model for IdleHarts {
    ghost use Rattle.std.specs.Prelude.{◌≡◌, List, Option, false};
    ghost use Rattle.ddm_tree.specs.declared.idle.Idle.{Idle};
    ghost use Rattle.ddm_tree.specs.Idle.{IsNoneFull};

    ghost Value = { List (Option Idle) };

    ghost view = { λ i. i.known.items };

    ghost invariant = { λ i. i.any_full ≡ false → IsNoneFull i.known.items };
}

/// What the turns of an idle hart answer.
pub(crate) fn idle_answer(idle: Idle) -> TurnAnswer
    ensures { result ≡ idle_answer idle }
{
    match idle {
        Idle::Waits(item) => TurnAnswer::Waiting(item),
        Idle::BufferFull(leaf) => TurnAnswer::Busy(BusyCause::BufferFull(leaf)),
        Idle::Halted(cause) => TurnAnswer::Halted(cause),
    }
}

/// Why a hart is idle that answered so.
fn idle_told(answer: &TurnAnswer) -> Option<Idle>
    ensures { result ≡ idle_told answer.now }
{
    match answer {
        TurnAnswer::Waiting(item) => Some(Idle::Waits(*item)),
        TurnAnswer::Busy(BusyCause::BufferFull(leaf)) => Some(Idle::BufferFull(*leaf)),
        _ => None,
    }
}

/// What is remembered of the hart of this number.
#[inline(always)]
fn known_of(idle: &IdleHarts, place: usize) -> Option<Idle>
    ensures { result ≡ idle_there (slice_get idle.now place) }
{
    match idle.known.get(place) {
        Some(known) => *known,
        None => None,
    }
}

/// What is remembered of the hart of a turn.
#[inline(always)]
pub(crate) fn idle_for(turn: &Turn, idle: &IdleHarts) -> Option<Idle>
    ensures { result ≡ idle_for turn.now idle.now }
{
    match turn {
        Turn::Hart { hart, .. } => known_of(idle, hart.0 as usize),
        Turn::Down { .. } | Turn::Request { .. } | Turn::Reply { .. } | Turn::Leave { .. } => None,
    }
}

/// The item that a grant may have answered: a read or an erase answers nobody that waits for its item.
fn answered_by(entry: &LogEntry) -> Option<ItemId>
    ensures { result ≡ answered_by entry.now }
{
    let item = entry.item;
    match entry.kind {
        TxKind::ReadTx | TxKind::EraseTx => None,
        TxKind::DataTx | TxKind::ExclusiveTx | TxKind::InjectTx | TxKind::OutTx => Some(item),
    }
}

/// Whether what is known of a hart may be otherwise after a grant on its bus that may have answered the item: a hart that has halted
/// stays so, and one that waits for another item waits on.
#[inline(always)]
fn may_change(known: Option<Idle>, answered: Option<ItemId>) -> bool
    ensures { result ≡ may_change known answered }
{
    match known {
        Some(Idle::Waits(ItemId(waited))) => match answered {
            Some(item) => waited == item.0,
            None => false,
        },
        Some(Idle::BufferFull(_)) => true,
        Some(Idle::Halted(_)) | None => false,
    }
}

/// Whether the turns of a hart of which this is known are busy, if it is idle.
fn idle_as(known: &Option<Idle>) -> Option<bool>
    ensures { result ≡ idle_as known.now }
{
    match known {
        Some(Idle::Waits(_)) | Some(Idle::Halted(_)) => Some(false),
        Some(Idle::BufferFull(_)) => Some(true),
        None => None,
    }
}

/// Why a hart is idle, as far as its leaf tells it: it has halted, or an entry waits for a transaction.
#[inline(always)]
pub(crate) fn rests_by(halted: Option<HaltCause>, waiting: Option<ItemId>) -> Option<Idle>
    ensures { result ≡ rests_by halted waiting }
{
    match (halted, waiting) {
        (Some(cause), _) => Some(Idle::Halted(cause)),
        (None, Some(item)) => Some(Idle::Waits(item)),
        (None, None) => None,
    }
}

/// Remembers it of the hart of this number, where there is one, or forgets what was remembered.
fn put_idle(idle: &mut IdleHarts, quiet: &mut [Quiet], place: usize, known: Option<Idle>)
    ensures put { idle.new ≡ slice_set idle.old place known }
    ensures harts { HartsAgree quiet.old idle.old → HartsAgree quiet.new idle.new }
    ensures buses { KeepsBuses quiet.old quiet.new }
{
    if place < idle.known.len() {
        let busy = idle_as(&known);
        idle.any_full |= busy == Some(true);
        note_hart(quiet, place, busy);
        idle.known[place] = known;
    }
}

/// Remembers it of the hart of a turn.
fn keep_idle(idle: &mut IdleHarts, quiet: &mut [Quiet], turn: &Turn, known: Idle)
    ensures put { idle.new ≡ with_idle turn.now known idle.old }
    ensures harts { HartsAgree quiet.old idle.old → HartsAgree quiet.new idle.new }
    ensures buses { KeepsBuses quiet.old quiet.new }
{
    match turn {
        Turn::Hart { hart, .. } => put_idle(idle, quiet, hart.0 as usize, Some(known)),
        Turn::Down { .. } | Turn::Request { .. } | Turn::Reply { .. } | Turn::Leave { .. } => {}
    }
}

/// Why the hart of a leaf below a directory is idle, as far as the leaf tells it.
pub(crate) fn rest_under<const WORDS: usize, C: Subtree<WORDS>>(
    children: &[C],
    path: &[ChildNo],
) -> Option<Idle>
    ensures { (d : DirValue) → IfSome result (λ i. node_rests (node_at path.now (dir_node d (nodes (map C.value children.now)))) ≡ Some i) }
{
    let (child, rest) = path.split_first()?;
    children.get(child.0 as usize)?.rest_below(rest)
}

/// The same of the leaf of this number.
fn rest_of<const WORDS: usize, C: Subtree<WORDS>>(
    children: &[C],
    leaf_paths: &[Vec<ChildNo>],
    leaf: usize,
) -> Option<Idle>
    ensures { (d : DirValue) →
        IfSome result (λ i. IsSeen leaf (map vec_items leaf_paths.now)
        (dir_node d (nodes (map C.value children.now))) i) }
{
    rest_under(children, leaf_paths.get(leaf)?)
}

/// Remembers anew why the hart of a leaf is idle, as far as the leaf tells it.
fn look<const WORDS: usize, C: Subtree<WORDS>>(
    idle: &mut IdleHarts,
    quiet: &mut [Quiet],
    children: &[C],
    leaf_paths: &[Vec<ChildNo>],
    leaf: usize,
)
    ensures looked { (d : DirValue) →
        IsLooked leaf (map vec_items leaf_paths.now) (dir_node d (nodes (map C.value children.now))) idle.old
        idle.new }
    ensures harts { HartsAgree quiet.old idle.old → HartsAgree quiet.new idle.new }
    ensures buses { KeepsBuses quiet.old quiet.new }
{
    put_idle(idle, quiet, leaf, rest_of(children, leaf_paths, leaf));
}

/// The same after a grant, where that may have changed what is known.
#[inline(always)]
fn look_after<const WORDS: usize, C: Subtree<WORDS>>(
    idle: &mut IdleHarts,
    quiet: &mut [Quiet],
    children: &[C],
    leaf_paths: &[Vec<ChildNo>],
    leaf: usize,
    answered: Option<ItemId>,
)
    ensures looked { (d : DirValue) →
        IsLookedAfter answered leaf (map vec_items leaf_paths.now)
        (dir_node d (nodes (map C.value children.now))) idle.old idle.new }
    ensures harts { HartsAgree quiet.old idle.old → HartsAgree quiet.new idle.new }
    ensures buses { KeepsBuses quiet.old quiet.new }
{
    if may_change(known_of(idle, leaf), answered) {
        look(idle, quiet, children, leaf_paths, leaf);
    }
}

/// Whether what is known of one of these leaves may be otherwise after a grant that answers nobody. No branch depends on what is known.
#[inline(always)]
fn may_any_change(idle: &IdleHarts, leaves: &[usize]) -> bool
    ensures { result ≡ false → NoneChanges None (length leaves.now) leaves.now idle.now }
{
    let mut any = false;
    for leaf in leaves {
        any |= may_change(known_of(idle, *leaf), None);
    }
    any
}

/// The same of each of these leaves.
#[inline(never)]
fn look_at_all<const WORDS: usize, C: Subtree<WORDS>>(
    idle: &mut IdleHarts,
    quiet: &mut [Quiet],
    children: &[C],
    leaf_paths: &[Vec<ChildNo>],
    leaves: &[usize],
    answered: &Option<ItemId>,
)
    ensures seen { (d : DirValue) →
        AreSeen answered.now (λ k. IsNoneOf k (length leaves.now) leaves.now) (map vec_items leaf_paths.now)
        (dir_node d (nodes (map C.value children.now))) idle.old idle.new }
    ensures harts { HartsAgree quiet.old idle.old → HartsAgree quiet.new idle.new }
    ensures buses { KeepsBuses quiet.old quiet.new }
{
    for leaf in leaves {
        look_after(idle, quiet, children, leaf_paths, *leaf, *answered);
    }
}

/// The same, if one may be otherwise: mostly no leaf is to be looked at, and nothing is called.
#[inline(always)]
fn look_near<const WORDS: usize, C: Subtree<WORDS>>(
    idle: &mut IdleHarts,
    quiet: &mut [Quiet],
    children: &[C],
    leaf_paths: &[Vec<ChildNo>],
    leaves: &[usize],
    answered: Option<ItemId>,
)
    ensures seen { (d : DirValue) →
        AreSeen answered (λ k. IsNoneOf k (length leaves.now) leaves.now) (map vec_items leaf_paths.now)
        (dir_node d (nodes (map C.value children.now))) idle.old idle.new }
    ensures harts { HartsAgree quiet.old idle.old → HartsAgree quiet.new idle.new }
    ensures buses { KeepsBuses quiet.old quiet.new }
{
    if answered.is_some() || may_any_change(idle, leaves) {
        look_at_all(idle, quiet, children, leaf_paths, leaves, &answered);
    }
}

/// The number of a child that is a leaf.
#[inline(always)]
fn leaf_of(child: TreeChild) -> Option<LeafNo>
    ensures { (k : ℕ) → child ≡ TreeChild.LeafChild k → result ≡ Some k }
{
    match child {
        TreeChild::LeafChild(leaf) => Some(leaf),
        TreeChild::BusChild(_) => None,
    }
}

/// The number of the leaf that is this child of the bus at a path's end; None where no leaf is there.
#[inline(always)]
pub(crate) fn leaf_under<const WORDS: usize, C: Subtree<WORDS>>(
    children: &[C],
    path: &[ChildNo],
    place: usize,
) -> Option<LeafNo>
    ensures { (d : DirValue) (k : ℕ) →
        Leads (leaf_of_number k) (path.now ++ place ∷ []) (dir_node d (nodes (map C.value children.now))) →
        result ≡ Some k }
{
    match path.split_first() {
        None => leaf_of(children.get(place)?.label()),
        Some((child, rest)) => children.get(child.0 as usize)?.leaf_below(rest, place),
    }
}

/// Remembers anew why the hart of the leaf is idle that is this child of the bus at the path, where a grant may have changed it.
#[inline(always)]
fn look_child<const WORDS: usize, C: Subtree<WORDS>>(
    idle: &mut IdleHarts,
    quiet: &mut [Quiet],
    children: &[C],
    leaf_paths: &[Vec<ChildNo>],
    path: &[ChildNo],
    named: Option<usize>,
    answered: &Option<ItemId>,
)
    ensures seen { (d : DirValue) →
        let n = dir_node d (nodes (map C.value children.now)) in
        AreSeen answered.now (IsNoChild (λ c. named ≡ Some c) path.now n) (map vec_items leaf_paths.now) n
        idle.old idle.new }
    ensures harts { HartsAgree quiet.old idle.old → HartsAgree quiet.new idle.new }
    ensures buses { KeepsBuses quiet.old quiet.new }
{
    if let Some(place) = named {
        if let Some(leaf) = leaf_under(children, path, place) {
            look_after(
                idle,
                quiet,
                children,
                leaf_paths,
                leaf.0 as usize,
                *answered,
            );
        }
    }
}

/// The same of two children, if there are so many.
#[inline(always)]
fn look_two<const WORDS: usize, C: Subtree<WORDS>>(
    idle: &mut IdleHarts,
    quiet: &mut [Quiet],
    children: &[C],
    leaf_paths: &[Vec<ChildNo>],
    path: &[ChildNo],
    first: Option<usize>,
    second: Option<usize>,
    answered: &Option<ItemId>,
)
    ensures seen { (d : DirValue) →
        let n = dir_node d (nodes (map C.value children.now)) in
        AreSeen answered.now (IsNoChild (λ c. (first ≡ Some c) ⊎ (second ≡ Some c)) path.now n)
        (map vec_items leaf_paths.now) n idle.old idle.new }
    ensures harts { HartsAgree quiet.old idle.old → HartsAgree quiet.new idle.new }
    ensures buses { KeepsBuses quiet.old quiet.new }
{
    look_child(idle, quiet, children, leaf_paths, path, first, answered);
    look_child(idle, quiet, children, leaf_paths, path, second, answered);
}

/// Whether what is known of any hart may be otherwise after a grant that may have answered this item.
#[inline(always)]
fn may_matter(idle: &IdleHarts, answered: &Option<ItemId>) -> bool
    ensures { result ≡ false → (k : ℕ) (i : Idle) → slice_get idle.now k ≡ Some (Some i) → may_change (Some i) answered.now ≡ false }
{
    answered.is_some() || idle.any_full
}

/// Remembers anew why harts are idle after a grant on the bus of this number: of the children that it touched, or, where these may be
/// more than two, of all leaves near the bus.
#[inline(always)]
fn look_on<const WORDS: usize, C: Subtree<WORDS>>(
    idle: &mut IdleHarts,
    quiet: &mut [Quiet],
    children: &[C],
    leaf_paths: &[Vec<ChildNo>],
    bus_paths: &[Vec<ChildNo>],
    bus_leaves: &[Vec<usize>],
    bus: usize,
    answer: &TurnAnswer,
    answered: Option<ItemId>,
)
    ensures noted { (d : DirValue) (t : Turn) (entry : LogEntry) → named_by t ≡ bus_of_number bus →
        answer.now ≡ TurnAnswer.Granted entry → answered ≡ answered_by entry →
        AreNoted t answer.now (map vec_items bus_leaves.now) (map vec_items bus_paths.now)
        (map vec_items leaf_paths.now) (dir_node d (nodes (map C.value children.now))) idle.old idle.new }
    ensures harts { HartsAgree quiet.old idle.old → HartsAgree quiet.new idle.new }
    ensures buses { KeepsBuses quiet.old quiet.new }
{
    if !may_matter(idle, &answered) {
        return;
    }
    match two_touched(answer) {
        Some((first, second)) => {
            if let Some(path) = bus_paths.get(bus) {
                look_two(
                    idle, quiet, children, leaf_paths, path, first, second, &answered,
                );
            }
        }
        None => {
            if let Some(listed) = bus_leaves.get(bus) {
                look_near(idle, quiet, children, leaf_paths, listed, answered);
            }
        }
    }
}

/// Remembers what a turn answered of its hart, or what the leaves tell that the turn may have changed: its own, or, of those of the bus
/// that granted something, each that may have waited for it.
#[inline(always)]
pub(crate) fn note<const WORDS: usize, C: Subtree<WORDS>>(
    idle: &mut IdleHarts,
    quiet: &mut [Quiet],
    children: &[C],
    leaf_paths: &[Vec<ChildNo>],
    bus_paths: &[Vec<ChildNo>],
    bus_leaves: &[Vec<usize>],
    turn: &Turn,
    answer: &TurnAnswer,
)
    ensures noted { (d : DirValue) →
        AreNoted turn.now answer.now (map vec_items bus_leaves.now) (map vec_items bus_paths.now)
        (map vec_items leaf_paths.now) (dir_node d (nodes (map C.value children.now))) idle.old idle.new }
    ensures harts { HartsAgree quiet.old idle.old → HartsAgree quiet.new idle.new }
    ensures buses { KeepsBuses quiet.old quiet.new }
{
    match answer {
        TurnAnswer::Granted(entry) => {
            if let Named::Bus(bus) = named(turn) {
                look_on(
                    idle,
                    quiet,
                    children,
                    leaf_paths,
                    bus_paths,
                    bus_leaves,
                    bus.0 as usize,
                    answer,
                    answered_by(entry),
                );
            }
        }
        TurnAnswer::Issued(_, _) | TurnAnswer::Halted(_) => {
            if let Named::Leaf(leaf) = named(turn) {
                look(idle, quiet, children, leaf_paths, leaf.0 as usize);
            }
        }
        TurnAnswer::Waiting(_) | TurnAnswer::Busy(_) => {
            if let Some(known) = idle_told(answer) {
                keep_idle(idle, quiet, turn, known);
            }
        }
        TurnAnswer::Retired(_) | TurnAnswer::Empty => {}
    }
}

/// Forgets all that is remembered.
fn forget_known(known: &mut [Option<Idle>])
    ensures { IsNothing known.new }
{
    for place in 0..known.len() {
        known[place] = None;
    }
}

/// The same of all harts.
pub(crate) fn forget_all(idle: &mut IdleHarts)
    ensures { IsNothing idle.new }
{
    forget_known(&mut idle.known);
    idle.any_full = false;
}

/// A place for each of so many leaves, with nothing remembered.
pub(crate) fn nothing_known(alloc: Global, leaves: u32) -> Result<IdleHarts, NoMemory>
    ensures { IfOk result IsNothing }
{
    let mut known = vec![in alloc; None; leaves as usize]?;
    forget_known(&mut known);
    Ok(IdleHarts {
        known,
        any_full: false,
    })
}
