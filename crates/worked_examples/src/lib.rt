//! Worked examples of the machine, each a theorem: what the definitions compute is what is written there.
#![tactic(auto)]

ghost use Rattle.worked_examples.specs.StoreAndLoadBack.{StoreAndLoadBack};
ghost use Rattle.worked_examples.specs.OneRead.{OneRead};
ghost use Rattle.worked_examples.specs.AJoinedRead.{AJoinedRead};
ghost use Rattle.worked_examples.specs.TwoWriters.{TwoWriters};
ghost use Rattle.worked_examples.specs.Reservations.{Reservations};
ghost use Rattle.worked_examples.specs.AStaleLoad.{AStaleLoad};
ghost use Rattle.worked_examples.specs.AFullBuffer.{AFullBuffer};
ghost use Rattle.worked_examples.specs.TheLastCopy.{TheLastCopy};
ghost use Rattle.worked_examples.specs.AnInjectForSeveralReaders.{AnInjectForSeveralReaders};
ghost use Rattle.worked_examples.specs.OneByteOfOutput.{OneByteOfOutput};
ghost use Rattle.worked_examples.specs.BuildRefusals.{BuildRefusals};
ghost use Rattle.worked_examples.specs.SeededSchedule.{SeededSchedule};
ghost use Rattle.worked_examples.specs.Saved.{OneLeafSaved};

/// One leaf stores 7, loads it back and exits with it.
pub fn store_and_load_back()
    ensures { StoreAndLoadBack }
{}

/// A hart loads a word of an item that another leaf holds.
pub fn one_read()
    ensures { OneRead }
{}

/// A read joins a read that is under way, and the data goes to both.
pub fn a_joined_read()
    ensures { AJoinedRead }
{}

/// Two harts store to one word: the second to ask is served first.
pub fn two_writers()
    ensures { TwoWriters }
{}

/// An LR and an SC: the reservation is kept, or lost to another hart.
pub fn reservations()
    ensures { Reservations }
{}

/// A load of the old word is later in turns than the store, and earlier in the witness. Then the old word can't be read after the flag.
pub fn a_stale_load()
    ensures { AStaleLoad }
{}

/// A victim goes to the buffer; a second one finds it full, until the copy in it leaves.
pub fn a_full_buffer()
    ensures { AFullBuffer }
{}

/// Copies that find no room are parked; an out of a copy that isn't the last is dropped, and the last copy becomes an inject.
pub fn the_last_copy()
    ensures { TheLastCopy }
{}

/// Two leaves read an item that comes to their bus as an inject: both get data.
pub fn an_inject_for_several_readers()
    ensures { AnInjectForSeveralReaders }
{}

/// A hart puts one byte, and then runs out of code.
pub fn one_byte_of_output()
    ensures { OneByteOfOutput }
{}

/// Where a machine can't be built, and which items segments and stacks make.
pub fn build_refusals()
    ensures { BuildRefusals }
{}

/// The schedule of seed 42 on two leaves.
pub fn seeded_schedule()
    ensures { SeededSchedule }
{}

/// The words of a machine of one leaf that is saved.
pub fn one_leaf_saved()
    ensures { OneLeafSaved }
{}
