//! What holds of every log of a test, as theorems: each clause is one, and there is nothing to run.

ghost use Rattle.litmus_states.specs.Laws.{RunsAreComplete, StatesAreCounted, StatesAreLegal};

/// Each state of a log is that of a legal run of the flat machine from the image's start, after which each hart is at its
/// breakpoint.
pub fn states_are_legal()
    ensures { StatesAreLegal }
{}

/// A log has exactly the states to which its seeds came, each in one line with how many seeds came to it and the smallest
/// of them, the most frequent first.
pub fn states_are_counted()
    ensures { StatesAreCounted }
{}

/// Each run of a log is counted once: for its state, or as one that hadn't ended, or as one in which a hart faulted.
pub fn runs_are_complete()
    ensures { RunsAreComplete }
{}
