//! What holds of every run, as theorems: each clause is one, and there is nothing to run.

ghost use Rattle.witness_laws.specs.Judgements.{NumbersAreOfAcceptedTexts, RefusalsAreSo};
ghost use Rattle.witness_laws.specs.OfFiles.{WitnessesOfFilesAreChecked};
ghost use Rattle.witness_laws.specs.Printed.{PrintedWitnessesAreAccepted, PrintedWitnessesAreJudgedLegal, ReportsEndWithTheWitness};

/// The report of a run ends with the lines of its operations, and these are accepted as a witness for the same tree and image: for
/// every tree and image from which a machine is made and every list of turns that a schedule may have.
pub fn printed_witness_is_accepted()
    ensures report { ReportsEndWithTheWitness }
    ensures accepted { PrintedWitnessesAreAccepted }
    ensures judged { PrintedWitnessesAreJudgedLegal }
{}

/// The checker comes to a number exactly where the text is the lines of so many operations that are legal from a start, and to a
/// refusal only where what the refusal says is so.
pub fn judgements_are_right()
    ensures numbers { NumbersAreOfAcceptedTexts }
    ensures refusals { RefusalsAreSo }
{}

/// The witness of a run of accepted files, on the turns of a schedule or of a seed, is accepted for the same files: nothing else is
/// asked of them.
pub fn witnesses_of_files_are_checked()
    ensures { WitnessesOfFilesAreChecked }
{}
