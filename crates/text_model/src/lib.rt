//! The texts that the program reads and prints, as definitions: schedules, reports, traces and the lines of faults.
#![tactic(auto)]

pub mod examples;
pub mod laws;
pub mod of_ddm_text;
pub mod of_ddm_types;
pub mod of_rv_decode;
pub mod of_tree_model;

/// Why the text of a schedule is refused.
#[derive(Clone, Copy, Debug, PartialEq, Eq)]
pub enum ScheduleRefusal {
    /// The line is neither a turn nor `end`, or has more than 24 bytes.
    BadTurn,
    /// There would be more turns than 1,048,576.
    TooManyTurns,
    NoSuchHart,
    NoSuchBus,
    NoSuchChild,
    /// The bytes end before the line `end`.
    NoEnd,
    /// A byte follows the line `end`.
    AfterEnd,
}

/// What the turns of a run came to: how many there were, and how many of them completed an instruction, granted a
/// transaction, or were refused because something was under way or full.
#[derive(Clone, Copy, Debug, PartialEq, Eq)]
pub struct RunCounts {
    pub turns: u32,
    pub retired: u32,
    pub granted: u32,
    pub busy: u32,
}
