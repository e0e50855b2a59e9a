//! What holds of every run, as theorems: each clause is one, and there is nothing to run.

ghost use Rattle.run_laws.specs.AfterATurn.{TurnsKeepPairs};
ghost use Rattle.run_laws.specs.InOrder.{AllRunsInOrder, AllTurnsJudged};

/// From the start of every tree and image from which a machine is made, and from each machine that a run from there came to, each list
/// of turns is in order. From whatever machine, each turn is busy for its reason, and an SC fails exactly where its item isn't
/// reserved.
pub fn runs_are_in_order()
    ensures order { AllRunsInOrder }
    ensures judged { AllTurnsJudged }
{}

/// After a turn of a machine that keeps its rules, as that of `ddm_tree` does, each SC that stores has its LR before it in the order of
/// keys, and between them no other hart stores to its item. The rules of order are asked for before the turn, from a flat machine at its
/// start: one in which a hart has an item reserved could end with an SC whose LR is in no list.
pub fn turns_keep_pairs()
    ensures { TurnsKeepPairs }
{}
