//! A line of the table of outcomes.

use std::marker::Model;

/// An outcome, how many seeds gave it, and the smallest of these.
#[derive(Drop)]
pub struct OutcomeLine {
    pub(crate) times: u64,
    pub(crate) seed: u64,
    pub(crate) text: Vec<u8>,
}

impl Model for OutcomeLine {
    ghost use Rattle.outcome_model.specs.Table.{OutcomeLine, outcome_code};

    ghost Value = { OutcomeLine };

    ghost coded = { outcome_code };

    ghost view = { λ l. record { times = l.times; seed = l.seed; outcome = l.text.items } };
}
