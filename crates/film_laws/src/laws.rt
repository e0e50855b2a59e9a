//! What holds of the films of accepted trees and images, as theorems: each clause is one, and there is nothing to run.

ghost use Rattle.std.specs.Prelude.{◌≡◌, List, None, map, true};
ghost use Rattle.film_laws.specs.BusLaws.IsTree.{IsTree};
ghost use Rattle.film_laws.specs.DdmTypes.declared.turns.Turn.{Turn};
ghost use Rattle.film_laws.specs.TreeModel.Start.Machine.{start_machine, start_refusal};
ghost use Rattle.film_laws.specs.TreeModel.Start.Sources.{ImageValue, TreeValue};
ghost use Rattle.film_laws.specs.TreeModel.Turns.Machine.{run_of};
ghost use Rattle.film_model.specs.Replay.{all_replayed, has_keys_once, told_in, without_value};
ghost use Rattle.film_model.specs.Still.{still};
ghost use Rattle.value_laws.specs.Images.{IsOfBytes};

/// Each part of the machine of a tree and an image of bytes has a key of its own.
pub fn starts_have_keys_once()
    ensures { (t : TreeValue) (i : ImageValue) → IsTree t → IsOfBytes i → start_refusal t i ≡ None →
        has_keys_once (still (start_machine t i)) ≡ true }
{}

/// What the head of a film and each of its turns tell, put in one after the other, is all that the machine has after the run.
pub fn films_of_runs_tell_all()
    ensures { (t : TreeValue) (i : ImageValue) (turns : List Turn) → IsTree t → IsOfBytes i → start_refusal t i ≡ None
        → all_replayed (told_in turns (start_machine t i)) (map without_value (still (start_machine t i)))
        ≡ still (run_of turns (start_machine t i)).machine }
{}
