//! The words of a checkpoint and a machine determine each other, as theorems: there is nothing to run.

ghost use Rattle.std.specs.Prelude.{◌≡◌, ℕ, ◌+◌, ◌≤◌, List, ◌++◌, length, Ok};
ghost use Rattle.std.specs.List.{AllByRecursion};
ghost use Rattle.spelling_laws.specs.TreeModel.State.Values.{MachineValue};
ghost use Rattle.spelling_laws.specs.TreeModel.State.Shape.{IsShaped, frame_of};
ghost use Rattle.spelling_laws.specs.TreeModel.Start.Sources.{ImageValue, TreeValue};
ghost use Rattle.spelling_laws.specs.TreeModel.Start.Machine.{start_of};
ghost use Rattle.spelling_laws.specs.BusLaws.IsTree.{IsTree};
ghost use Rattle.spelling_laws.specs.TreeRules.Bus.Rules.{IsMachineOk};
ghost use Rattle.spelling_laws.specs.TreeRules.Order.Rules.{IsTimed};
ghost use Rattle.spelling_laws.specs.StateWords.Machine.{checkpoint_words, state_words};
ghost use Rattle.spelling_laws.specs.StateReading.Machine.{read_words};
ghost use Rattle.spelling_laws.specs.StateReading.Parts.{most_counted};
ghost use Rattle.state_judging.specs.Read.{CanRead};
ghost use Rattle.value_laws.specs.Values.{HasForm, IsWord};
ghost use Rattle.spelling_laws.specs.Small.{HasSmallSizes, IsSmall};
ghost use Rattle.spelling_laws.specs.Spelled.{IsSpelled};

/// Words that are read into a machine are those that are spelled of what was read: a state has one spelling.
pub fn accepted_words_are_spelled()
    ensures words { (fresh m : MachineValue) (retired k at : ℕ) (ws rest : List ℕ) → CanRead fresh →
        read_words fresh retired k ws ≡ Ok (record { value = m; at = at; rest = rest }) →
        ws ≡ state_words m ++ rest }
    ensures next { (fresh m : MachineValue) (retired k at : ℕ) (ws rest : List ℕ) → CanRead fresh →
        read_words fresh retired k ws ≡ Ok (record { value = m; at = at; rest = rest }) →
        at ≡ k + length (state_words m) }
    ensures completed { (fresh m : MachineValue) (retired k at : ℕ) (ws rest : List ℕ) → CanRead fresh →
        read_words fresh retired k ws ≡ Ok (record { value = m; at = at; rest = rest }) → length m.ops ≡ retired }
{}

/// The words that are spelled of a machine are read as that machine, into one before its first turn of the same frame; what stands
/// behind them is left.
pub fn spelled_words_are_read()
    ensures { (fresh m : MachineValue) (k : ℕ) (rest : List ℕ) → CanRead fresh → frame_of m ≡ frame_of fresh →
        IsSpelled m →
        read_words fresh (length m.ops) k (state_words m ++ rest)
        ≡ Ok (record { value = m; at = k + length (state_words m); rest = rest }) }
{}

/// The words that are spelled of a machine, and those of its checkpoint, are numbers of 32 bits, where there are so few items, places
/// and operations that their numbers are.
pub fn spelled_words_are_small()
    ensures state { (m : MachineValue) → IsShaped m → IsSpelled m → IsSmall m → AllByRecursion IsWord (state_words m) }
    ensures checkpoint { (m : MachineValue) (turns retired granted busy : ℕ) → IsShaped m → IsSpelled m →
        IsSmall m → turns ≤ most_counted → retired ≤ most_counted → granted ≤ most_counted → busy ≤ most_counted
        → AllByRecursion IsWord (checkpoint_words m turns retired granted busy) }
{}

/// A machine that keeps the rules of every bus and of time, whose values have their form and of which no count is above what a
/// checkpoint may say, is one whose words are read again.
pub fn ruled_machines_are_spelled()
    ensures { (m : MachineValue) → IsMachineOk m → IsTimed m → HasForm most_counted m → IsSpelled m }
{}

/// A machine of a tree whose sizes are words has so few items, leaves, buses and places that their numbers are.
pub fn started_machines_are_small()
    ensures { (t : TreeValue) (i : ImageValue) (m : MachineValue) → IsTree t → HasSmallSizes t → start_of t i ≡ Ok m → IsSmall m }
{}
