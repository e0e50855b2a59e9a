//! What holds of the rules themselves.

ghost use Rattle.std.specs.Prelude.{◌≡◌, true};
ghost use Rattle.tree_rules.specs.FlatModel.Flat.{FlatMachine};
ghost use Rattle.tree_model.specs.State.Values.{MachineValue};
ghost use Rattle.tree_rules.specs.Bus.Rules.{IsMachineOk, machine_holds};
ghost use Rattle.tree_rules.specs.Order.Rules.{IsInOrder, order_holds};

/// The tests of the rules tell just what the facts say.
pub fn tests_tell_the_facts()
    ensures bus { (m : MachineValue) → machine_holds m ≡ true → IsMachineOk m }
    ensures bus_back { (m : MachineValue) → IsMachineOk m → machine_holds m ≡ true }
    ensures order { (s : FlatMachine) (m : MachineValue) → order_holds s m ≡ true → IsInOrder s m }
    ensures order_back { (s : FlatMachine) (m : MachineValue) → IsInOrder s m → order_holds s m ≡ true }
{}
