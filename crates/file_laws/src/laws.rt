//! What holds of accepted files, as theorems: each clause is one, and there is nothing to run.

ghost use Rattle.file_laws.specs.CheckpointSizes.{CheckpointsAreBounded};
ghost use Rattle.file_laws.specs.Images.{AcceptedImagesAreOfBytes};
ghost use Rattle.file_laws.specs.Schedules.{SeededSchedulesAreReadBack};
ghost use Rattle.file_laws.specs.Trees.{AcceptedTreesAreTrees};

/// A tree file that is accepted gives a tree that a machine can have, and whose sizes are words.
pub fn accepted_trees()
    ensures { AcceptedTreesAreTrees }
{}

/// An image file that is accepted gives an image of bytes.
pub fn accepted_images()
    ensures { AcceptedImagesAreOfBytes }
{}

/// The text of a seed's turns is a schedule of these turns: a run of the one is a run of the other.
pub fn seeded_schedules()
    ensures { SeededSchedulesAreReadBack }
{}

/// The checkpoint of a run has at most 405 MiB, and 60 bytes for each turn: after as many turns as a schedule may have it is within the
/// 512 MiB that a file to be resumed may have.
pub fn checkpoint_sizes()
    ensures { CheckpointsAreBounded }
{}
