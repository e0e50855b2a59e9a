//! What time can't change, as theorems: each clause is one, and there is nothing to run.

ghost use Rattle.std.specs.Prelude.{◌≡◌, ℕ, Bool, List, ◌++◌, map};
ghost use Rattle.time_laws.specs.DdmTypes.declared.keys.Stamp.{Stamp};
ghost use Rattle.time_laws.specs.DdmTypes.declared.turns.Turn.{Turn};
ghost use Rattle.time_laws.specs.FlatModel.Hart.{HartValue};
ghost use Rattle.tree_model.specs.declared.BusTurn.{BusTurn};
ghost use Rattle.tree_model.specs.State.Lists.{map_from};
ghost use Rattle.tree_model.specs.State.Values.{DirValue, Node, Nodes, MachineValue};
ghost use Rattle.tree_model.specs.Turns.Bus.{bus_step};
ghost use Rattle.tree_model.specs.Turns.Children.{only};
ghost use Rattle.tree_model.specs.Turns.Machine.{turn_of, run_of, machine_leaves};
ghost use Rattle.time_laws.specs.Forget.{forget_leaf, forget_dir, forget, forget_answer, put_bytes, put_in, Alike};
ghost use Rattle.time_laws.specs.Blind.{Unseen, ChangedAlone, with_inside};

/// A change of children that no bus sees goes with each turn of a bus, at whatever time of the bus and of the one above it.
pub fn buses_are_blind()
    ensures { (f : ℕ → Node → Node) → Unseen f → (above now : Stamp) (t : BusTurn) (p q : DirValue) (ns : List Node)
        → forget_dir p ≡ forget_dir q → ChangedAlone f (bus_step above t p ns) (bus_step now t q (map_from f 0 ns)) }
{}

/// No bus sees the hart of a leaf, how many instructions it has completed and that its reservation ends, nor what is below a child.
pub fn harts_are_unseen()
    ensures { (child : ℕ) (hart : HartValue) (done : ℕ) (ends : Bool) (below : Nodes → Nodes)
        → Unseen (only child (with_inside hart done ends below)) }
{}

/// A turn of a machine without its time answers the same, but for the key of an operation, and leaves the same, but for time.
pub fn turns_are_blind()
    ensures answer { (t : Turn) (m : MachineValue)
        → forget_answer (turn_of t m).answer ≡ forget_answer (turn_of t (forget m)).answer }
    ensures machine { (t : Turn) (m : MachineValue) → forget (turn_of t m).machine ≡ forget (turn_of t (forget m)).machine }
{}

/// A turn adds to a hart's output what its answer says. So machines that are alike stay alike, and their turns answer the same but
/// for keys. Their leaves are the same but for how many instructions were completed: each hart, and whether it has halted.
pub fn alike_stays()
    ensures puts { (hart : ℕ) (t : Turn) (m : MachineValue)
        → put_bytes hart (turn_of t m).machine ≡ put_bytes hart m ++ put_in hart (turn_of t m).answer }
    ensures answer { (t : Turn) (m n : MachineValue) → Alike m n
        → forget_answer (turn_of t m).answer ≡ forget_answer (turn_of t n).answer }
    ensures machine { (t : Turn) (m n : MachineValue) → Alike m n → Alike (turn_of t m).machine (turn_of t n).machine }
    ensures answers { (ts : List Turn) (m n : MachineValue) → Alike m n
        → map forget_answer (run_of ts m).answers ≡ map forget_answer (run_of ts n).answers }
    ensures run { (ts : List Turn) (m n : MachineValue) → Alike m n → Alike (run_of ts m).machine (run_of ts n).machine }
    ensures leaves { (m n : MachineValue) → Alike m n → map forget_leaf (machine_leaves m) ≡ map forget_leaf (machine_leaves n) }
{}
