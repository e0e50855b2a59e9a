//! A line of a table.

use std::marker::Model;

/// An outcome, how many runs gave it, and the smallest seed of these.
#[derive(Drop)]
pub struct OutcomeLine {
    pub(crate) times: u64,
    pub(crate) seed: u64,
    pub(crate) text: Vec<u8>,
}

impl Model for OutcomeLine {
    ghost use Rattle.joining.specs.OutcomeModel.Table.{OutcomeLine, outcome_code};

    ghost Value = { OutcomeLine };

    ghost coded = { outcome_code };

    ghost view = { λ l. record { times = l.times; seed = l.seed; outcome = l.text.items } };
}
