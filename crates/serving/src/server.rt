//! A machine that is served: it can be looked at, and makes turns.

ghost use Rattle.std.specs.Prelude.{◌≡◌, ℕ, ◌+◌, ◌≤◌, ◌++◌, Some, true, length, All, OnOk};
ghost use Rattle.serving.specs.TreeModel.Turns.Machine.{names_part, run_of};
ghost use Rattle.serving.specs.DdmTypes.declared.turns.Turn.{Turn};
ghost use Rattle.serving.specs.ServingModel.Told.{entry_state_at};

use ddm_types::{ItemId, LeafNo, LeafState, NoMemory, Turn, TurnAnswer};
use serving_walk::Tree;

/// A machine that can be looked at, and that counts the turns that it made.
pub trait Server: Tree {
    ghost made: { Self → ℕ };

    /// Makes turns, and puts their answers after the others.
    fn make(&mut self, turns: &[Turn], answers: &mut Vec<TurnAnswer>) -> Result<(), NoMemory>
        requires named { All (λ t. names_part t (Self.value self.old) ≡ true) turns.now }
        requires few { made self.old + length turns.now ≤ 4294967295 }
        ensures after { OnOk result (Self.value self.new ≡ (run_of turns.now (Self.value self.old)).machine) }
        ensures made { OnOk result (made self.new ≡ made self.old + length turns.now) }
        ensures answers { OnOk result
            (answers.new.items ≡ answers.old.items ++ (run_of turns.now (Self.value self.old)).answers) };

    /// The state of a leaf's entry of an item.
    fn state(&self, item: ItemId, leaf: LeafNo) -> Option<LeafState>
        requires { names_part (Turn.Hart leaf 0) (Self.value self.now) ≡ true }
        ensures { Some result ≡ entry_state_at leaf item (Self.value self.now) };
}
