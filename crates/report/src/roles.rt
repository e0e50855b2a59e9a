/// What a file is to a command.
#[derive(Clone, Copy, Debug, PartialEq, Eq)]
pub enum FileRole {
    ImageFile,
    TreeFile,
    ScheduleFile,
    WitnessFile,
    CheckpointFile,
}
