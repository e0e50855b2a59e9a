//! A machine of any tree as one that is served.

ghost use Rattle.any_runs.specs.AnyMachine.Any.{machine_state};

use crate::looking::{child, child_hold};
use any_runs::of_any_machine::AnyMachine;
use any_runs::run;
use ddm_types::{BusNo, ChildNo, Hold, ItemId, LeafNo, LeafState, NoMemory, Turn, TurnAnswer};
use serving::Server;
use serving::of_serving_walk::Tree;
use serving::of_tree_model::TreeChild;

/// A machine of any tree. It isn't dropped: `release` lets its machine go.
pub(crate) struct Served {
    pub(crate) machine: AnyMachine,
}

impl Tree for Served {
    ghost value = { λ s. (machine_state s.machine).machine };

    #[tactic(auto, using(crate::proofs::Parts::bus_part))]
    fn children(&self, bus: BusNo) -> u32 {
        self.machine.children(bus)
    }

    fn child(&self, bus: BusNo, number: ChildNo) -> TreeChild {
        child(&self.machine, bus, number)
    }

    fn child_hold(&self, bus: BusNo, number: ChildNo, item: ItemId) -> Hold {
        child_hold(&self.machine, bus, number, item)
    }
}

impl Server for Served {
    ghost made = { λ s. (machine_state s.machine).turns };

    fn make(&mut self, turns: &[Turn], answers: &mut Vec<TurnAnswer>) -> Result<(), NoMemory> {
        run(&mut self.machine, turns, answers, true)?;
        Ok(())
    }

    #[tactic(auto, using(crate::proofs::Parts::leaf_part))]
    fn state(&self, item: ItemId, leaf: LeafNo) -> Option<LeafState> {
        self.machine.state(item, leaf)
    }
}
