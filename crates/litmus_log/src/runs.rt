//! What runs came to.

use std::marker::Model;

/// A state, the words of what is observed; how many seeds came to it, and the smallest of these.
#[derive(Drop)]
pub struct StateLine {
    pub times: u64,
    pub seed: u64,
    pub words: Vec<u32>,
}

impl Model for StateLine {
    ghost use Rattle.litmus_model.specs.StatesText.{StateLine};
    ghost use Rattle.litmus_log.specs.Codes.{state_code};

    ghost Value = { StateLine };

    ghost coded = { state_code };

    ghost view = { λ s. record { times = s.times; seed = s.seed; words = s.words.items } };
}

/// The runs of so many seeds.
#[derive(Drop)]
pub struct RunStates {
    /// The states to which they came, in the order in which they are printed.
    pub states: Vec<StateLine>,
    pub runs: u32,
    /// How many hadn't ended.
    pub unfinished: u64,
    /// In how many a hart faulted.
    pub faulted: u64,
}
