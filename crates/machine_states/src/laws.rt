//! What holds of the table of a machine, as theorems: each clause is one, and there is nothing to run.

ghost use Rattle.std.specs.Prelude.{◌<◌, ℕ};
ghost use Rattle.tree_model.specs.State.Values.{MachineValue};
ghost use Rattle.search_laws.specs.Search.{searched};
ghost use Rattle.explorer.specs.SearchModel.Machines.{quiet_space};
ghost use Rattle.explorer.specs.StateKeys.Same.{same_state};
ghost use Rattle.machine_states.specs.Started.{IsStarted};
ghost use Rattle.machine_states.specs.Table.{TableIsRight};

/// The table of the machine of an accepted tree and an image is right, however many states are kept at most. Each line
/// is shown by its schedule, and no shorter one comes to its outcome. Where no state was without a place there are no
/// other outcomes and jams, over every schedule of any length; otherwise none over schedules of as many turns as were
/// gone through. And what is said to be lost is.
pub fn tables_are_right()
    ensures { (m : MachineValue) (most : ℕ) → IsStarted m → 0 < most →
        TableIsRight m (searched (quiet_space same_state) most m) }
{}
