//! The turns of a seed that do something, as definitions: which turns do, which drawn turns are let by, the run that records them and
//! how it ends. And what holds of every such run.
#![tactic(auto)]

pub mod examples;
pub mod laws;

/// Which of the turns that a seed draws are let by.
#[derive(Clone, Copy, Debug, PartialEq, Eq)]
pub enum SeedKind {
    /// Every one.
    Even,
    /// Those that the rates let by which a second generator gives the turns of the tree.
    Skewed,
}

/// Why a recorded run ended.
#[derive(Clone, Copy, Debug, PartialEq, Eq)]
pub enum RunEnd {
    /// Every hart has halted.
    Halted,
    /// As many turns as were asked for are recorded.
    Turns,
    /// So many drawn turns in a row did nothing that none is expected to.
    Stuck,
    /// All turns of the seed were drawn.
    Drawn,
}
