//! The flat machine: what each instruction does to the registers, the pc and the words of an item, the
//! machine of all harts over one memory, and the legal lists of completed instructions.
#![tactic(auto)]

pub mod of_ddm_types;
pub mod of_rv_decode;

ghost use Rattle.flat_model.specs.Examples.{StoreAndLoadBack, StoreAndLoadEnd, StoreAndLoadLegal, OneByteOfOutput};
ghost use Rattle.flat_model.specs.Examples.{ReservationKept, ReservationLost, FailedConditional, OwnStore, Results};
ghost use Rattle.flat_model.specs.Examples.{Jumps, BytesAndHalves, OtherWords, AtomicOperations, AmoOverAddress};
ghost use Rattle.flat_model.specs.Examples.{Asks, Halts, EffectsOnItems};

use ddm_types::{HaltCause, ItemId};

/// What a hart's next instruction needs before it can complete: nothing, a byte that is put out, a copy of
/// an item, the only copy of an item, the same if its reservation still holds, or nothing but a halt.
#[derive(Clone, Copy, Debug, PartialEq, Eq)]
pub enum Ask {
    Plain,
    Put(u8),
    NeedsShared { item: ItemId, lr: bool },
    NeedsExclusive { item: ItemId },
    Conditional { item: ItemId },
    Halt(HaltCause),
}

/// A word that is stored is loaded back and becomes the exit code.
#[tactic(auto, using(crate::proofs::Programs::store_and_load_back, crate::proofs::Programs::store_and_load_end))]
pub fn store_and_load_back()
    ensures answers { StoreAndLoadBack }
    ensures end { StoreAndLoadEnd }
    ensures legal { StoreAndLoadLegal }
{}

/// A byte is put, and the code ends.
#[tactic(auto, using(crate::proofs::Programs::one_byte_of_output))]
pub fn one_byte_of_output()
    ensures { OneByteOfOutput }
{}

/// A conditional store where the reservation was kept, where another hart's store ended it, and where it
/// was not let to store; a store of the hart's own.
#[tactic(auto, using(crate::proofs::Programs::reservation_programs))]
pub fn reservations()
    ensures kept { ReservationKept }
    ensures lost { ReservationLost }
    ensures failed { FailedConditional }
    ensures own_store { OwnStore }
{}

/// Single instructions at chosen operands: wrapping, signs, shifts, jumps, bytes and half words at each
/// offset, and the atomic operations.
#[tactic(auto, using(crate::proofs::Instructions::instruction_tables))]
pub fn single_instructions()
    ensures results { Results }
    ensures jumps { Jumps }
    ensures bytes { BytesAndHalves }
    ensures words { OtherWords }
    ensures atomics { AtomicOperations }
    ensures over_address { AmoOverAddress }
{}

/// What instructions ask for, each way to halt, and which effects are on an item or change it.
#[tactic(auto, using(crate::proofs::Halts::asks, crate::proofs::Halts::halts, crate::proofs::Halts::effects_on_items))]
pub fn asks_and_halts()
    ensures asks { Asks }
    ensures halts { Halts }
    ensures effects { EffectsOnItems }
{}
