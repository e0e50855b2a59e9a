//! The calls on tables that are put together, as tests.
#![tactic(auto)]

#[cfg(test)]
mod with_joining;
