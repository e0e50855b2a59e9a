//! What holds of all films, as theorems: each clause is one, and there is nothing to run.

ghost use Rattle.std.specs.Prelude.{◌≡◌, ◌≤◌, ℕ, List, map, true};
ghost use Rattle.film_model.specs.DdmTypes.declared.turns.Turn.{Turn};
ghost use Rattle.film_model.specs.DdmTypes.ItemTable.{item_count};
ghost use Rattle.film_model.specs.TreeModel.State.Rooms.{all_within};
ghost use Rattle.film_model.specs.TreeModel.State.Shape.{IsShaped, tree_counts};
ghost use Rattle.film_model.specs.TreeModel.State.Values.{MachineValue, root_of};
ghost use Rattle.film_model.specs.TreeModel.Start.Sources.{TreeValue};
ghost use Rattle.film_model.specs.TreeModel.Turns.Machine.{run_of};
ghost use Rattle.film_model.specs.Film.{film_of};
ghost use Rattle.film_model.specs.Markup.{HasNoMarkup};
ghost use Rattle.film_model.specs.Part.{Part, changes};
ghost use Rattle.film_model.specs.Replay.{IsReplayable, all_replayed, has_keys_once, have_registers, part_key};
ghost use Rattle.film_model.specs.Replay.{replayed, told_in, without_value};
ghost use Rattle.film_model.specs.Still.{still};

/// What a turn changed, put into the parts before it, gives the parts after it: nothing is left out.
pub fn changes_are_all()
    ensures { (before after : List Part) → has_keys_once before ≡ true
        → map part_key before ≡ map part_key after
        → replayed (changes before after) before ≡ after }
{}

/// No byte of a film is `&`, `<` or `>`: a page can hold it as it is.
pub fn films_have_no_markup()
    ensures { (tree : TreeValue) (turns : List Turn) (m : MachineValue) → HasNoMarkup (film_of tree turns m) }
{}

/// No two parts of a still have the same key, where leaves are numbered from left to right, each leaf and directory has a place for each
/// item, each hart has 32 registers, and all of them can be counted.
pub fn keys_come_once()
    ensures { (items : ℕ) (m : MachineValue) → IsShaped m → all_within items (root_of m) ≡ true → have_registers 32 (root_of m) ≡ true
        → items ≤ 4294967296 → (tree_counts m).leaves ≤ 4294967296 → (tree_counts m).buses ≤ 4294967296 → item_count m.items ≤ 4294967296
        → has_keys_once (still m) ≡ true }
{}

/// What the head and each of the turns tell, put in one after the other, is all that the machine has after the run.
pub fn films_tell_all()
    ensures { (items : ℕ) (turns : List Turn) (m : MachineValue) → IsReplayable items m
        → all_replayed (told_in turns m) (map without_value (still m)) ≡ still (run_of turns m).machine }
{}
