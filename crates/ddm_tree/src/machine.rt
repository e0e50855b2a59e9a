//! The machine of a tree, and its turns.

ghost use Rattle.std.specs.Prelude.{◌≡◌, ℕ, List, ◌+◌, ◌*◌, ◌<◌, ◌≤◌, ◌^◌, [], Some, true, false, is_ok, length, map};
ghost use Rattle.std.specs.Prelude.{max, slice_get, vec_items, IfNone, IfOk, IfSome, OnSome, if◌then◌else◌};
ghost use Rattle.ddm_tree.specs.DdmTypes.declared.answers.TurnAnswer.TheVariants.{Empty};
ghost use Rattle.ddm_tree.specs.TreeModel.Turns.Machine.{named_by, names_part, no_traffic, turn_of};
ghost use Rattle.ddm_tree.specs.DdmTypes.Keys.{stamp_zero};
ghost use Rattle.ddm_tree.specs.DdmTypes.ItemTable.{item_count};
ghost use Rattle.ddm_tree.specs.TreeModel.State.Values.{dir_node, nodes};
ghost use Rattle.ddm_tree.specs.BusyLaws.Reasons.{busy_cause, busy_reason};
ghost use Rattle.ddm_tree.specs.LrScLaws.Failing.{fails_unreserved, sc_failed};
ghost use Rattle.ddm_tree.specs.Named.{name_of};
ghost use Rattle.ddm_tree.specs.Path.{node_at, present_at, put_at, node_answer, node_turned};
ghost use Rattle.ddm_tree.specs.Ready.{IsReady, Leads};
ghost use Rattle.ddm_tree.specs.TreeModel.Turns.Tree.{leaf_of_number};
ghost use Rattle.ddm_tree.specs.TreeRules.Bus.Rules.{IsTreeOk};
ghost use Rattle.ddm_tree.specs.Rules.{StaysInOrder};
ghost use Rattle.ddm_tree.specs.Idle.{AreIdle};
ghost use Rattle.ddm_tree.specs.Quiet.{AreLearnedBelow, AreNear, HartsAgree, IsTouchedBy, is_hart_turn, passed_as};
ghost use Rattle.ddm_tree.specs.Machine.{IsFound, IsNew, has_path, listed_path, new_machine, state_after, without_ops};

use crate::below::turn_under;
use crate::idle::{IdleHarts, idle_answer, idle_for, note, nothing_known};
use crate::named::Named;
use crate::of_ddm_types::{
    ChildNo, Code, Items, LeafNo, NoMemory, Stamp, TreeCounts, Turn, TurnAnswer,
};
use crate::of_tree_model::Traffic;
use crate::paths::{bus_paths, leaf_paths};
use crate::quiet::{Quiet, known_as, near_lists, note_buses, nothing_quiet};
use crate::record::record;
use crate::subtree::Subtree;
use crate::turn_call::TurnCall;
use operation_list::Operations;
use std::alloc::Global;
use std::marker::Model;
use top_node::TopState;

/// The machine: the top over the children of bus 0.
#[derive(Drop)]
pub struct Machine<const WORDS: usize, C: Subtree<WORDS>> {
    pub(crate) top: TopState<WORDS>,
    pub(crate) children: Vec<C>,
    pub(crate) code: Code,
    pub(crate) items: Items,
    pub(crate) ops: Operations,
    pub(crate) traffic: Vec<Traffic>,
    pub(crate) counts: TreeCounts,
    /// For each leaf and for each bus its path.
    pub(crate) leaf_paths: Vec<Vec<ChildNo>>,
    pub(crate) bus_paths: Vec<Vec<ChildNo>>,
    /// For each bus the numbers of the leaves near it.
    pub(crate) bus_leaves: Vec<Vec<usize>>,
    /// For each leaf why its hart is idle, where that is known.
    pub(crate) idle: IdleHarts,
    /// For each number what the bus that has it is quiet of, and whether turns of the hart that has it are busy, where that is known.
    pub(crate) quiet: Vec<Quiet>,
    /// How many operations can still be taken without memory.
    pub(crate) spare: u32,
    /// How many turns were made.
    pub(crate) turns: u32,
}

impl<const WORDS: usize, C: Subtree<WORDS>> Model for Machine<WORDS, C> {
    ghost use Rattle.std.specs.Prelude.{◌≡◌, ℕ, List, ◌*◌, ◌≤◌, ◌^◌, ◌<◌, map, vec_items};
    ghost use Rattle.ddm_tree.specs.TreeModel.State.Shape.{tree_counts};
    ghost use Rattle.ddm_tree.specs.Idle.{AreIdle};
    ghost use Rattle.ddm_tree.specs.Quiet.{AreNear, AreQuiet, HartsAgree};
    ghost use Rattle.ddm_tree.specs.Machine.{MachineState, IsMachine, machine_of};
    ghost use Rattle.ddm_tree.specs.TreeModel.State.Values.{dir_node, nodes};
    ghost use Rattle.ddm_tree.specs.Codes.{machine_code};

    ghost Value = { MachineState };

    ghost coded = { machine_code };

    ghost view = { λ m. record {
      machine = machine_of m.code m.items m.top (map C.value m.children.items)
          m.ops.items m.traffic.items;
      spare = m.spare;
      turns = m.turns;
    } };

    ghost invariant = { λ m. IsMachine WORDS
        (machine_of m.code m.items m.top (map C.value m.children.items) m.ops.items m.traffic.items) m.turns
        (map vec_items m.leaf_paths.items) (map vec_items m.bus_paths.items)
        × (tree_counts (machine_of m.code m.items m.top (map C.value m.children.items) m.ops.items m.traffic.items) ≡ m.counts)
        × (WORDS < 2 ^ 32) × (m.items.size ≡ 4 * WORDS) × (m.spare ≤ m.ops.spare)
        × AreIdle m.code m.items m.idle (dir_node m.top (nodes (map C.value m.children.items)))
        (dir_node m.top (nodes (map C.value m.children.items)))
        × AreQuiet m.quiet.items (dir_node m.top (nodes (map C.value m.children.items)))
        (dir_node m.top (nodes (map C.value m.children.items)))
        × HartsAgree m.quiet.items m.idle
        × AreNear (map vec_items m.bus_leaves.items) (map vec_items m.bus_paths.items) (map vec_items m.leaf_paths.items) };
}

impl<const WORDS: usize, C: Subtree<WORDS> + Drop> Machine<WORDS, C> {
    /// The top over its children, before the first turn: no operation, no traffic, and no memory for operations.
    pub fn new(
        alloc: Global,
        top: TopState<WORDS>,
        children: Vec<C>,
        code: Code,
        items: Items,
        counts: TreeCounts,
    ) -> Result<Self, NoMemory>
        requires fits { WORDS < 2 ^ 32 }
        requires size { items.size ≡ 4 * WORDS }
        requires parts { IsNew WORDS (new_machine code items top (map C.value children.items) counts) counts }
        ensures { IfOk result
            (λ m. m
            ≡ record {
              machine = new_machine code items top.entry (map C.value children.items) counts;
              spare = 0;
              turns = 0;
            }) }
    {
        let leaf_paths = leaf_paths(alloc, &top, &children, counts.leaves)?;
        let bus_paths = bus_paths(alloc, &top, &children, counts.buses)?;
        let traffic = vec![in alloc; no_traffic(); counts.buses as usize]?;
        let idle = nothing_known(alloc, counts.leaves)?;
        let bus_leaves = near_lists(alloc, &bus_paths, &leaf_paths)?;
        let quiet = nothing_quiet(alloc, counts.leaves.max(counts.buses))?;
        Ok(Machine {
            top,
            children,
            code,
            items,
            ops: Operations::new(alloc),
            traffic,
            counts,
            leaf_paths,
            bus_paths,
            bus_leaves,
            idle,
            quiet,
            spare: 0,
            turns: 0,
        })
    }
}

impl<const WORDS: usize, C: Subtree<WORDS>> Machine<WORDS, C> {
    /// Takes memory so that at least `n` more operations need none.
    pub fn reserve(&mut self, n: u32) -> Result<(), NoMemory>
        ensures { self.new ≡ record self.old { spare = (if is_ok result then max self.old.spare n else self.old.spare) } }
    {
        if self.spare < n {
            self.ops.reserve(n as usize)?;
            self.spare = n;
        }
        Ok(())
    }

    /// Forgets its operations, for whoever keeps none. The memory for them stays.
    pub fn forget_ops(&mut self)
        ensures { self.new ≡ record self.old { machine = without_ops self.old.machine } }
    {
        self.ops.clear();
    }

    /// Makes a turn that is known to change nothing, and says whether it is a busy one; any other it doesn't make. It takes no memory.
    #[inline(always)]
    pub fn pass(&mut self, turn: &Turn) -> Option<bool>
        requires named { names_part turn.now self.old.machine ≡ true }
        requires turns { self.old.turns < 4294967295 }
        ensures passed { OnSome result (self.new ≡ state_after turn.now self.old) }
        ensures counted { IfSome result (λ busy. passed_as (turn_of turn.now self.old.machine).answer ≡ Some busy) }
        ensures empty { IfSome result (λ _. is_hart_turn turn.now ≡ false → (turn_of turn.now self.old.machine).answer ≡ Empty) }
        ensures kept { OnSome result (self.new.machine ≡ self.old.machine) }
        ensures same { IfNone result (self.new ≡ self.old) }
    {
        let busy = known_as(&self.quiet, turn)?;
        self.turns += 1;
        Some(busy)
    }

    /// One turn of a hart or a bus: busy exactly for the first of its reasons. An SC fails exactly where its item isn't its leaf's
    /// reservation. It takes no memory.
    pub fn turn(&mut self, turn: Turn) -> TurnAnswer
        requires named { names_part turn self.old.machine ≡ true }
        requires spare { 0 < self.old.spare }
        requires turns { self.old.turns < 4294967295 }
        ensures answer { result ≡ (turn_of turn self.old.machine).answer }
        ensures after { self.new ≡ state_after turn self.old }
        ensures order { StaysInOrder self.old.machine self.new.machine }
        ensures busy { busy_cause result ≡ busy_reason turn self.old.machine }
        ensures failing { sc_failed result ≡ fails_unreserved turn self.old.machine }
    {
        let mut answer = TurnAnswer::Empty;
        self.turn_into(&turn, &mut answer);
        answer
    }

    /// The same, where the answer is put where the caller wants it: copying it costs more than most turns.
    pub fn turn_into(&mut self, turn: &Turn, answer: &mut TurnAnswer)
        requires named { names_part turn.now self.old.machine ≡ true }
        requires spare { 0 < self.old.spare }
        requires turns { self.old.turns < 4294967295 }
        ensures answer { answer.new ≡ (turn_of turn.now self.old.machine).answer }
        ensures after { self.new ≡ state_after turn.now self.old }
        ensures order { StaysInOrder self.old.machine self.new.machine }
        ensures busy { busy_cause answer.new ≡ busy_reason turn.now self.old.machine }
        ensures failing { sc_failed answer.new ≡ fails_unreserved turn.now self.old.machine }
    {
        turn_made(
            &mut self.top,
            &mut self.children,
            &self.code,
            &self.items,
            &self.leaf_paths,
            &self.bus_paths,
            &self.bus_leaves,
            &mut self.idle,
            &mut self.quiet,
            turn,
            answer,
        );
        self.turns += 1;
        record(answer, &mut self.ops, &mut self.traffic, &mut self.spare);
    }
}

/// One turn of the leaf or bus that it names, whose path is listed.
fn turn_found<const WORDS: usize, C: Subtree<WORDS>>(
    top: &mut TopState<WORDS>,
    children: &mut [C],
    code: &Code,
    items: &Items,
    leaf_paths: &[Vec<ChildNo>],
    bus_paths: &[Vec<ChildNo>],
    turn: &Turn,
    answer: &mut TurnAnswer,
)
    requires size { items.now.size ≡ 4 * WORDS }
    requires ready { IsReady (item_count items.now) WORDS (dir_node top.old (nodes (map C.value children.old))) }
    requires found { IsFound turn.now (dir_node top.old (nodes (map C.value children.old)))
        (map vec_items leaf_paths.now) (map vec_items bus_paths.now) }
    ensures answer { (path : List ℕ) →
        listed_path (named_by turn.now) (map vec_items leaf_paths.now) (map vec_items bus_paths.now) ≡ Some path →
        let n = dir_node top.old (nodes (map C.value children.old)) in
        answer.new
        ≡ node_answer code.now items.now turn.now path (present_at path stamp_zero n) (node_at path n) }
    ensures after { (path : List ℕ) →
        listed_path (named_by turn.now) (map vec_items leaf_paths.now) (map vec_items bus_paths.now) ≡ Some path →
        let n = dir_node top.old (nodes (map C.value children.old)) in
        dir_node top.new (nodes (map C.value children.new))
        ≡ put_at path
        (node_turned code.now items.now turn.now path (present_at path stamp_zero n) (node_at path n)) n }
{
    let path = path_of(named(turn), leaf_paths, bus_paths);
    let call = TurnCall {
        code,
        items,
        path,
        turn,
    };
    turn_under(top, children, &call, path, &Stamp::zero(), answer);
}

/// The same, without a look at the tree where the hart is known to be idle. What only a grant reads is lent as it lies in the machine, so
/// that other turns don't touch it.
fn turn_made<const WORDS: usize, C: Subtree<WORDS>>(
    top: &mut TopState<WORDS>,
    children: &mut [C],
    code: &Code,
    items: &Items,
    leaf_paths: &[Vec<ChildNo>],
    bus_paths: &[Vec<ChildNo>],
    bus_leaves: &Vec<Vec<usize>>,
    idle: &mut IdleHarts,
    quiet: &mut [Quiet],
    turn: &Turn,
    answer: &mut TurnAnswer,
)
    requires size { items.now.size ≡ 4 * WORDS }
    requires ready { IsReady (item_count items.now) WORDS (dir_node top.old (nodes (map C.value children.old))) }
    requires found { IsFound turn.now (dir_node top.old (nodes (map C.value children.old)))
        (map vec_items leaf_paths.now) (map vec_items bus_paths.now) }
    requires paths { (k : ℕ) (path : List ℕ) →
        Leads (leaf_of_number k) path (dir_node top.old (nodes (map C.value children.old))) →
        slice_get (map vec_items leaf_paths.now) k ≡ Some path }
    requires idle { AreIdle code.now items.now idle.old (dir_node top.old (nodes (map C.value children.old)))
        (dir_node top.old (nodes (map C.value children.old))) }
    requires harts { HartsAgree quiet.old idle.old }
    requires near { AreNear (map vec_items bus_leaves.now.items) (map vec_items bus_paths.now) (map vec_items leaf_paths.now) }
    requires ruled { IsTreeOk (item_count items.now) (dir_node top.old (nodes (map C.value children.old))) }
    requires later { (path : List ℕ) →
        listed_path (named_by turn.now) (map vec_items leaf_paths.now) (map vec_items bus_paths.now) ≡ Some path →
        let n = dir_node top.old (nodes (map C.value children.old)) in
        IsTreeOk (item_count items.now)
        (put_at path
        (node_turned code.now items.now turn.now path (present_at path stamp_zero n) (node_at path n)) n) }
    ensures answer { (path : List ℕ) →
        listed_path (named_by turn.now) (map vec_items leaf_paths.now) (map vec_items bus_paths.now) ≡ Some path →
        let n = dir_node top.old (nodes (map C.value children.old)) in
        answer.new
        ≡ node_answer code.now items.now turn.now path (present_at path stamp_zero n) (node_at path n) }
    ensures after { (path : List ℕ) →
        listed_path (named_by turn.now) (map vec_items leaf_paths.now) (map vec_items bus_paths.now) ≡ Some path →
        let n = dir_node top.old (nodes (map C.value children.old)) in
        dir_node top.new (nodes (map C.value children.new))
        ≡ put_at path
        (node_turned code.now items.now turn.now path (present_at path stamp_zero n) (node_at path n)) n }
    ensures quiet { (path : List ℕ) →
        listed_path (named_by turn.now) (map vec_items leaf_paths.now) (map vec_items bus_paths.now) ≡ Some path →
        AreLearnedBelow (IsTouchedBy answer.new path) (dir_node top.new (nodes (map C.value children.new)))
        quiet.old quiet.new }
    ensures harts { HartsAgree quiet.new idle.new }
    ensures idle { AreIdle code.now items.now idle.new (dir_node top.old (nodes (map C.value children.old)))
        (dir_node top.new (nodes (map C.value children.new))) }
{
    match idle_for(turn, idle) {
        Some(known) => *answer = idle_answer(known),
        None => {
            turn_found(
                top, children, code, items, leaf_paths, bus_paths, turn, answer,
            );
            note(
                idle, quiet, children, leaf_paths, bus_paths, bus_leaves, turn, answer,
            );
            note_buses(quiet, top, children, leaf_paths, bus_paths, turn, answer);
        }
    }
}

/// What a turn names.
pub(crate) fn named(turn: &Turn) -> Named
    ensures { name_of result ≡ named_by turn.now }
{
    match turn {
        Turn::Hart { hart, .. } => Named::Leaf(LeafNo(hart.0)),
        Turn::Down { bus }
        | Turn::Request { bus, .. }
        | Turn::Reply { bus, .. }
        | Turn::Leave { bus, .. } => Named::Bus(*bus),
    }
}

/// The path to a leaf or bus.
pub(crate) fn path_of<'a>(
    name: Named,
    leaf_paths: &'a [Vec<ChildNo>],
    bus_paths: &'a [Vec<ChildNo>],
) -> &'a [ChildNo]
    requires { has_path (name_of name) (length leaf_paths.now) (length bus_paths.now) }
    ensures { Some result.now ≡ listed_path (name_of name) (map vec_items leaf_paths.now) (map vec_items bus_paths.now) }
{
    match name {
        Named::Leaf(leaf) => &leaf_paths[leaf.0 as usize],
        Named::Bus(bus) => &bus_paths[bus.0 as usize],
    }
}

/// No grant of any kind.
fn no_traffic() -> Traffic
    ensures { result ≡ no_traffic }
{
    Traffic {
        reads: 0,
        copies: 0,
        erases: 0,
        exclusives: 0,
        outs: 0,
        injects: 0,
    }
}
