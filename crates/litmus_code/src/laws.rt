//! What holds of the code of every assembled image, as theorems: there is nothing to run.

ghost use Rattle.litmus_code.specs.Laws.{CodeIsThere, LeavesAreThere, ThreadsAreThere};

/// The machine's code has each instruction of the listing at its place: so the word of each leaf, and each thread's instructions from
/// its first one on.
pub fn code_is_there()
    ensures code { CodeIsThere }
    ensures leaves { LeavesAreThere }
    ensures threads { ThreadsAreThere }
{}
